//! What is offered at a place, and among which few numbers the best of each form is.
#![tactic(auto)]

mod candidates;
pub mod laws;
mod lending;
mod sizes;

pub use candidates::{block_ticks, block_wait, own_period, own_ticks, shared_ticks, shared_wait};
pub use lending::{lent_of, share_of};
pub use sizes::{direct_size, spread_size};
