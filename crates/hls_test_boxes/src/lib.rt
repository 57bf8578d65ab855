//! Boxes of all kinds, driven through their trait.
#![tactic(auto)]

#[cfg(test)]
mod harness;
#[cfg(test)]
mod kits;
#[cfg(test)]
mod reservations;
#[cfg(test)]
mod trials;
#[cfg(test)]
mod worked;
