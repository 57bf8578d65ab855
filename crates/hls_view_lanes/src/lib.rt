//! The rows of a picture of a report: the places that somebody has in a span of ticks, and in how many ticks of each of
//! its columns somebody is there, ready below, or served through it.
#![tactic(auto)]

mod asking;
mod counts;
mod lanes;
pub mod laws;
mod likeness;
mod paths;
mod present;
mod readings;
mod rows;
mod tallies;
mod telling;
mod tick_facts;
mod ways;

pub use counts::Counts;
pub use lanes::{Lanes, lanes_of, rows_between};
pub use likeness::is_same;
pub use tick_facts::Facts;
