//! Where the promises to the stays that have a row of a picture had least to spare.
#![tactic(auto)]

mod fractions;
mod least;
mod sightings;
mod surpluses;
mod tights;

pub use tights::{Tight, tights_of};
