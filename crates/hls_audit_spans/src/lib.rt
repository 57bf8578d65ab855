//! Some ticks, kept as spans in their order.
#![tactic(auto)]

mod span;
mod spans;

pub use span::Span;
pub use spans::Spans;
