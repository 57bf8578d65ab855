//! How near each stay of a report came to its guarantee and its cap.
#![tactic(auto)]

mod best;
mod cuts;
mod first;
pub mod laws;
mod margin;
mod measures;
mod parts;
mod rooms;
mod rows;
mod scale;
mod spares;
mod stays;

pub use margin::{Distance, Margin, Part, Room, Row, Spare};
pub use rows::{is_in, steady_until};
pub use scale::{Line, Scale};
pub use stays::margins;
