//! The language of scenarios: its types, its grammar, and the canonical text of scenarios and of commands.
#![tactic(auto)]

pub mod laws;
mod printing;
mod scenario;

pub use printing::{print_command, print_scenario, put_command};
pub use scenario::{Command, Item, Perch, Scenario, Spot};
