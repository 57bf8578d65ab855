//! The rules by which budgets, tags, turns and places go from tick to tick. What each kind of scheduler is to do is
//! defined by its book as a whole; these laws say that the definitions keep the rules.
#![tactic(auto)]

pub mod laws;
