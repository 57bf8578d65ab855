//! The answers of a report are those of the moments at which its commands come.
#![tactic(auto)]

pub mod laws;
