//! What an answer of the program means for the reports of a scenario: each request that is told is answered done where
//! it is put into the scenario, and terms find a free seat exactly where they are among those that are told to be left.
#![tactic(auto)]

pub mod laws;
