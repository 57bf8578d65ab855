//! All that the program `hlsoffer` does, with boxes of all kinds and the eleven rules.
#![tactic(auto)]

mod starting;

pub use starting::start;
