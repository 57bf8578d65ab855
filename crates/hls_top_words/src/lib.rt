//! The words of a command line: the table of those that the program knows, read beside `clap`.
#![tactic(auto)]

mod jobs;
pub mod laws;
mod parsing;
mod table;
mod told;

pub use jobs::Job;
pub use parsing::asked_for;
