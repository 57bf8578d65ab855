//! What round robin gives a seat: no seat is passed over, and each has its part in time.
#![tactic(auto)]

pub mod laws;
