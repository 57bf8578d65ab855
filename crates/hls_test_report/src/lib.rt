//! What is found of the text of a report by slow and plain definitions alone, for tests.
#![tactic(auto)]

mod judging;
mod ways;

pub use judging::{Finding, judged};
