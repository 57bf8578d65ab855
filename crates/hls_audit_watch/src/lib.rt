//! Whether what a seat gets, told tick by tick, satisfies its guarantee so far and keeps its cap.
#![tactic(auto)]

mod capped;
mod capping;
mod cuts;
mod keeping;
mod kept;
mod over;
mod past;
mod recent;
mod reservation;
mod shortage;
mod watch;

pub use shortage::{first_over, first_short};
pub use watch::Watch;
