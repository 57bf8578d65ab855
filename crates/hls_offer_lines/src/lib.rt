//! The cheapest terms with which a guarantee can be had, and what can be promised to a seat, as a list of lines.
#![tactic(auto)]

mod hard;
pub mod laws;
mod lending;
mod lines;
mod periods;
mod shares;
mod terms;

pub use lines::offered;
pub use terms::{TermsAsked, first_terms};
