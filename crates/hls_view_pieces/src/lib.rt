//! Texts of fixed words and of numbers in turn.
#![tactic(auto)]

mod pieces;

pub use pieces::{Piece, put_pieces};
