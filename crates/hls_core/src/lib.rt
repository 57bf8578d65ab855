//! A scenario is carried out: commands at their ticks, and ticks, on a tree of boxes.
#![tactic(auto)]

mod asking;
mod begun;
mod bursts;
mod commands;
mod cores;
mod stepping;
mod telling;
mod ticks;
mod told;
mod ways;

pub use cores::Core;
pub use told::Told;
