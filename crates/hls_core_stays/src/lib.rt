//! The stays of threads, counted as they come.
#![tactic(auto)]

mod accounts;
mod places;
mod row;
mod stays;
mod sums;
mod tallies;
mod tally;
mod turnover;

pub use stays::Stays;
pub use turnover::Turnover;
