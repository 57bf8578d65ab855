//! What each reservation has whatever the others do, and what all of them together may still ask for.
#![tactic(auto)]

pub mod laws;
