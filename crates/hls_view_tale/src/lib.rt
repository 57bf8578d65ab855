//! What a report tells of the hierarchy: who sits where at a tick, and in which order their stays began.
#![tactic(auto)]

mod before;
mod following;
mod hierarchy;
mod label;
mod members;
mod moving;
mod place;
mod seats;
mod standing;
mod tale;
mod walking;

pub use before::standing_before;
pub use following::Following;
pub use hierarchy::{Hierarchy, hierarchy_at};
pub use label::Label;
pub use moving::firsts;
pub use place::Place;
pub use standing::Standing;
