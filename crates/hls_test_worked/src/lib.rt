//! Worked reports that are shown legal, and wrong ones that are shown not to be.
#![tactic(auto)]

pub mod reports;
