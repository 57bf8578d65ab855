//! What the audit of a report tests, clause by clause, and that every legal report is kept.
#![tactic(auto)]

pub mod laws;
mod member;

pub use member::{Member, Sort};
