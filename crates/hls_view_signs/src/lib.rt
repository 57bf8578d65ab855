//! What happens in the rows of a picture of a report: where stays begin, where threads are woken, and where work of
//! theirs is dropped.
#![tactic(auto)]

mod columns;
mod commands;
mod drops;
mod event;
mod happenings;
mod heard;
pub mod laws;
mod moments;
mod notes;
mod roused;
mod signs;
mod sources;

pub use signs::{Signs, signs_of};
