//! What a report tells of each place of the hierarchy at a tick: since when, what becomes of it, by which derivation.
#![tactic(auto)]

mod activity;
mod asking;
mod derived;
mod paths;
mod since;

pub use activity::{Activity, Scene};
pub use derived::derivation_of;
pub use since::since_of;
