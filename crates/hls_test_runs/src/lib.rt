//! Worked legal runs, each with its schedule.
#![tactic(auto)]

pub mod bounds;
pub mod joins;
pub mod priorities;
pub mod reservations;
pub mod shares;
