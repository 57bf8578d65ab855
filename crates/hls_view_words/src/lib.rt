//! The words of the command line of `hlsview`: the table of those that it knows, read beside `clap`.
#![tactic(auto)]

mod heads;
pub mod laws;
mod names;
mod parsing;
mod spans;
mod table;
mod ticks;
mod views;

pub use parsing::asked_for;
pub use views::View;
