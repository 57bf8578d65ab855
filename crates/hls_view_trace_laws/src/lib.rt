//! What holds of the traces of reports: each function's contract is a law, and its body does nothing.
#![tactic(auto)]

pub mod flame;
pub mod json;
