//! What pictures are made of: paths and texts, and bars and marks above columns.
#![tactic(auto)]

mod elements;
mod marks;
mod page;
mod places;

pub use elements::{
    Area, Spot, put_area_path, put_path, put_path_of, put_strip, put_text, put_text_of,
};
pub use marks::{Bars, Shapes, put_bars, put_grounds, put_marks};
pub use page::Page;
pub use places::{column_x, row_top, tick_x};
