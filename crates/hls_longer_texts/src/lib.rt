//! Texts of scenarios that go on by a line.
#![tactic(auto)]

pub mod laws;
