//! How a picture stands: ticks in columns, round numbers, and bars as high as their part of a column.
#![tactic(auto)]

mod bars;
mod columns;
mod heights;
pub mod laws;
mod rounds;
mod scale;

pub use bars::{Bar, bars_of, grounds_of};
pub use columns::scale_of;
pub use heights::height;
pub use rounds::nice;
pub use scale::Scale;
