//! What holds of the places of a report whose commands and paths can be followed: each path names a place, places are
//! the ways down in the tree of names, each once, and the threads below a row share out its ticks. Where each column of
//! a picture is a tick, its strong bar tells the path.
#![tactic(auto)]

pub mod laws;
