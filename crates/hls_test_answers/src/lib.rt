//! The defined answer to each command of a report, computed anew from its commands and its runs alone. Slow and
//! plain, for tests.
#![tactic(auto)]

mod asked;
mod boxes;
mod comparing;
mod dues;
mod effects;
mod plain;
mod ranges;
mod reach;
mod refusing;
mod seating;
mod ticks;

pub use boxes::{BoxCount, boxes_after};
pub use comparing::first_other_answer;
pub use dues::{Due, dues_of};
pub use effects::carry_out;
pub use plain::{Hierarchy, Scheduler, Seat};
pub use ranges::config_in_range;
pub use refusing::{Moment, refusal_of};
pub use ticks::{asks, mask_of, name_at, pass, path_at};
