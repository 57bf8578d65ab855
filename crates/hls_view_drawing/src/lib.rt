//! The picture of a report: its rows, its commands and moves, and what ran, as the data that a picture is drawn from.
#![tactic(auto)]

mod commands;
mod drawing;
mod names;
mod rows;
mod strips;

pub use drawing::drawing_of;
