//! The best that can be promised to a seat: searches for a few candidates, and nothing better is.
#![tactic(auto)]

mod reservations;
mod seat;
mod waits;
mod windows;

pub use reservations::{Budget, Need, cheapest};
pub use seat::Seat;
pub use waits::least_wait;
pub use windows::{Form, Window, most_ticks};
