//! The text of the answer to a question about a scenario: one for each answer, written line by line.
#![tactic(auto)]

mod left;
mod requests;
mod writing;

pub use left::{Fit, Left, Span};
pub use requests::{put_refused, put_request};
pub use writing::{put_end, put_free, put_head};
