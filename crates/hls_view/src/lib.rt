//! All that `hlsview` does: a report is read, its audit is made, and a view of it is written.
#![tactic(auto)]

pub mod laws;
mod outputs;
mod run;
mod showing;

pub use run::view_run;
