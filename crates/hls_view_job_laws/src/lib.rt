//! What the jobs of a report have to do with its audit: in which ticks threads are ready and served, and how long jobs
//! take.
#![tactic(auto)]

pub mod laws;
