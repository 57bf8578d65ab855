//! The search for derivations.
#![tactic(auto)]

mod chain;
mod found;
mod rates;
mod searching;
mod sharing;
mod words;

pub use searching::search;
