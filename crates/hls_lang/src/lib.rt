//! The scenario language: scenarios, and the faults of a text that is none's.
#![tactic(auto)]

mod commands;
mod fault;
mod fractions;
pub mod laws;
mod line_error;
mod plain;
mod ports;
mod reader;
mod reading;
mod seats;
mod words;

pub use commands::read_item;
pub use fault::{Cause, ScenarioFault};
pub use hls_scenario::{Command, Item, Perch, Scenario, Spot, print_command, print_scenario};
pub use reading::read_scenario;
