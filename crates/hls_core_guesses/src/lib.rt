//! Where something is likely to stand in a list, by a sum over what it is.
#![tactic(auto)]

mod guesses;
mod sum;

pub use guesses::Guesses;
pub use sum::sum_of;
