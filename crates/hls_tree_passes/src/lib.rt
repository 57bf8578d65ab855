//! Passes over the nodes of a tree: what each one asks is told up, the processor is granted down, and ticks pass.
#![tactic(auto)]

mod asking;
mod changed;
mod granting;
mod turning;

pub use asking::tell;
pub use changed::{Changed, note_changed, note_told};
pub use granting::grant;
pub use turning::{leap_all, set_ready, stands_all, stands_within, turn_all};
