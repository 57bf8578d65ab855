//! Legal runs of a hierarchy of schedulers.
#![tactic(auto)]

pub mod laws;
