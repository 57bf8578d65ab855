//! A program that answers a question about a scenario at a tick: what can be promised to a thread on a seat, by which
//! terms a guarantee can be had, and what is left on each scheduler.
#![tactic(auto)]

mod left;
mod moments;
mod needing;
mod offering;
mod priorities;
mod replies;
mod run;
mod spare;
mod telling;

pub use run::offer_run;
