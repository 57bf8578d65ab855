//! The accounts that a report ought to print, counted anew from its commands and runs: slow and plain. Also which
//! threads are ready and served in a tick, and their stays.
#![tactic(auto)]

mod accounts;
mod commands;
mod readiness;
mod schedule;
mod stays;
mod under;
mod windows;

pub use accounts::{accounts_of, idle_of};
pub use readiness::is_ready;
pub use schedule::{is_idle, is_served};
pub use stays::stays_of;
pub use windows::window_start;
