//! What becomes of the threads of a report: who runs and is not ready, which stays are not kept, and the accounts.
#![tactic(auto)]

mod accounts;
mod chains;
mod findings;
mod known_threads;
mod lines;
mod lookup;
mod meeting;
mod paths;
mod starving;
mod stay_findings;
mod stays;
mod threads;

pub use findings::Findings;
pub use known_threads::{KnownThreads, ThreadTicks};
pub use lookup::Lookup;
