//! Texts: lines, tokens and numbers, read from the left; what stands before and behind a byte or words; and texts
//! that grow at their end. Only what grows takes memory.
#![tactic(auto)]

mod cuts;
mod decimals;
mod lines;
mod numbers;
mod tokens;
mod writing;

pub use cuts::{after, cut, place_of};
pub use decimals::decimal_number;
pub use lines::{is_clean, next_line, shown};
pub use numbers::number;
pub use tokens::next_token;
pub use writing::{put, put_number};
