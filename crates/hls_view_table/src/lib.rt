//! Tables as text: each column as wide as its widest cell, two spaces between columns.
#![tactic(auto)]

mod lanes;
pub mod laws;
mod table;
mod writing;

pub use table::{Column, Row, Side, Table};
pub use writing::write_table;
