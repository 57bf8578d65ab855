//! What views find of legal reports: such a report tells a tale, its audit is kept, and its margins have the numbers of
//! its accounts.
#![tactic(auto)]

pub mod laws;
