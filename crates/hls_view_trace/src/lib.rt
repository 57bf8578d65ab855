//! Traces of a schedule as text, in Chrome's trace event format.
#![tactic(auto)]

mod event;
mod writing;

pub use event::{Category, Counts, Event, Instant, Place, Slice, Trace};
pub use writing::write_trace;
