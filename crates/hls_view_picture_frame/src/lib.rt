//! What stands around the rows of a picture: the head, the style and the legend, the axis, and commands as lines.
#![tactic(auto)]

mod axis;
mod commands;
mod front;
mod legend;
mod style;

pub use axis::put_axis;
pub use commands::{column_of, columns_where, put_command_line, refusal_lines};
pub use front::{head_line, picture_high, picture_wide, put_heads, put_svg, put_titles, sums_line};
pub use legend::{put_legend, put_words};
pub use style::put_style;
