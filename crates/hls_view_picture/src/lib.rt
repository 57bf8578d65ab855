//! The whole text of a picture of finished rows.
#![tactic(auto)]

mod between;
mod ending;
mod strips;
mod titles;
mod writing;

pub use hls_view_picture_rows::{
    Class, Picture, PictureRow, ShownCommand, ShownMove, Stretch, Strip,
};
pub use writing::write_picture;
