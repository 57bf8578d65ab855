//! Slots by their keys: a tournament that keeps the least.
#![tactic(auto)]

mod order;

pub use order::Order;
