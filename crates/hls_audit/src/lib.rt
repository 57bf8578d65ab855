//! The audit of a report: the least tick at which one of its clauses fails, by what the report says alone.
#![tactic(auto)]

mod auditing;
mod below;
mod commands;
mod counts;
mod dues;
mod followed;
mod known;
mod leading;
mod placing;
mod rising;
mod tree;
mod ways;

pub use auditing::{Outcome, audit, audit_tale};
