//! The rules by which guarantees are converted, and what each of them answers.
#![tactic(auto)]

mod book;
mod conclusions;
pub mod laws;
mod longer;
mod rule;

pub use book::RuleBook;
pub use conclusions::{converts, quotient, strongest};
pub use hls_guarantee::RuleName;
pub use rule::{Conclude, RULES, Rule, answer};
