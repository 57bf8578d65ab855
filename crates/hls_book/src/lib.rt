//! What a scheduler's book keeps and promises to its seats, for each kind: reservations by the demand of all
//! slots together over a whole book, fair queueing by its tags, round robin by the turns that a seat waits for,
//! frames by the places that the seats own.
#![tactic(auto)]

pub mod laws;
mod server;

pub use server::Server;
