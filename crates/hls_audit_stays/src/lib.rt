//! The stays of threads that the commands of a report make, carried along the commands; and places of names.
#![tactic(auto)]

mod below;
mod carrying;
mod found;
mod places;
mod seats;
mod spells;

pub use carrying::stays_of;
pub use found::FoundStay;
pub use places::Places;
