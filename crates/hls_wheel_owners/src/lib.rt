//! A table of the places of a frame and whose they are, as seats come and go.
#![tactic(auto)]

mod owners;

pub use owners::{PLACES, apply, owned_below};
