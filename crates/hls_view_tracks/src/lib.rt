//! What a trace of a report shows: the flame of its schedule, and its commands.
#![tactic(auto)]

mod commands;
mod flame;
mod paths;

pub use commands::command_events;
pub use flame::schedule_events;
