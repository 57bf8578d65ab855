//! Short texts about seats and promises, which several views show.
#![tactic(auto)]

mod numbers;
mod seats;

pub use numbers::{distance_text, fraction_text, guarantee_text, number_text};
pub use seats::{sort_text, terms_text};
