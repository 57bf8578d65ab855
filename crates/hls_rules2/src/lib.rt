//! What the two rules for longer windows answer, as the stored rules of a book do.
#![tactic(auto)]

pub mod laws;
mod rule;

pub use rule::{answer_of, answer2};
