//! How deep schedulers are, and how deep they would be elsewhere: sums of what counts on the paths to them.
#![tactic(auto)]

mod below;
mod paths;
mod question;
mod rounds;
mod sum;

pub use below::Subtree;
pub use paths::{level_after, shares, shares_after};
