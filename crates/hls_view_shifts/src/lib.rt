//! Moves in a picture of a report: from which row to which each goes.
#![tactic(auto)]

mod moving;
mod rows;
mod shifts;
mod stays;

pub use shifts::{Shift, shifts_of};
