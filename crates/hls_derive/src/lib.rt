//! Derivations of guarantees, and their text.
#![tactic(auto)]

mod derivation;
pub mod laws;
mod reading;
mod words;
mod writing;

pub use derivation::{Derivation, Place, SchedStep, Step};
pub use reading::{guarantee, read_derivation};
pub use writing::write_derivation;
