//! Scenarios that are made from numbers, for trials.
#![tactic(auto)]

mod draws;
mod generating;
mod making;

pub use generating::generate;
