//! Tests of leaps over many ticks: how often boxes are called meanwhile.
#![tactic(auto)]

#[cfg(test)]
mod counting;
#[cfg(test)]
mod counts;
