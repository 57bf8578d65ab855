//! Jobs are in time: what a thread is served of the ticks that each release of a wake asks for, by its reservation and
//! by its guarantee.
#![tactic(auto)]

pub mod laws;
