//! What is found of a report, as the rows of tables.
#![tactic(auto)]

mod cells;
mod jobs;
mod margins;
mod trees;

pub use jobs::{write_jobs, write_thread_lines};
pub use margins::write_margins;
pub use trees::write_tree;
