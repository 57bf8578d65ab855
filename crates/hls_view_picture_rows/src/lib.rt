//! The rows of a picture: what each is, where its parts stand, and their text.
#![tactic(auto)]

mod grounds;
mod left;
mod picture;
mod rows;
mod signs;
mod words;

pub use grounds::put_row_grounds;
pub use left::page_of;
pub use picture::{Class, Picture, PictureRow, ShownCommand, ShownMove, Stretch, Strip};
pub use rows::{Heading, head_of, number_text, total};
pub use signs::put_rows;
