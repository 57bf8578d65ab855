//! The checker of derivations.
#![tactic(auto)]

mod checking;
pub mod laws;
mod lending;

pub use checking::{Verdict, check};
pub use lending::{lends, lent};
