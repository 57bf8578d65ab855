//! What fair queueing gives its seats in a run of ticks: by weight, with no tick lost, and in time.
#![tactic(auto)]

pub mod laws;
