//! All that the program does, with boxes of all kinds and the eleven rules.
#![tactic(auto)]

mod program;
mod reporting;
mod starting;

pub use program::{Program, run_with_boxes};
pub use reporting::report_on;
pub use starting::start;
