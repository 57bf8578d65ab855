//! What chains of conversions reach, and which short chains suffice.
#![tactic(auto)]

pub mod laws;
