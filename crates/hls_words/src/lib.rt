//! The words of a command line: as the machine gives them, and what clap is told of them.
#![tactic(auto)]

mod commands;
mod given;

pub use commands::{program_command, word_command};
pub use given::words_of;
