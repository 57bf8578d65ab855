//! Words ask one question.
#![tactic(auto)]

pub mod laws;
