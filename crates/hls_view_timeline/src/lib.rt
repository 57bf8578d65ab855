//! The trace of a report: its rows as processes and tracks, its schedule, its commands, and its stays.
#![tactic(auto)]

mod accounts;
mod ends;
pub mod laws;
mod naming;
mod numbers;
mod paths;
mod readings;
mod slices;
mod staying;
mod timeline;
mod ways;

pub use timeline::trace_of;
