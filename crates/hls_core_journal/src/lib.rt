//! What a run of a scenario tells while it goes on, and the report that comes of it.
#![tactic(auto)]

mod answered;
mod journal;
mod kept_rows;
mod report;
mod runs;
mod schedule;
mod sums;
mod tails;
mod ways;

pub use journal::Journal;
pub use schedule::Schedule;
