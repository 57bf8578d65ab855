//! Searches over a stored rule book, held against worked derivations and against all chains over small guarantees, and
//! derivations that are checked at places.
#![tactic(auto)]

#[cfg(test)]
mod chains;
#[cfg(test)]
mod checked;
#[cfg(test)]
mod tests;
