//! What follows of reservations by blocks and by sliding windows: exactly which windows and shares.
#![tactic(auto)]

pub mod laws;
