//! The words of a question about a scenario: the table of those that `hlsoffer` knows, read beside `clap`.
#![tactic(auto)]

mod asked;
mod heads;
mod numbers;
mod parsing;
mod periods;
mod questions;
mod seats;
mod spelling;
mod table;
mod told;

pub use asked::{Asked, Question};
pub use parsing::asked_for;
