//! Values worked out by hand of what stands below the rest: what sources and sinks pass on, what lists of ticks keep of
//! guarantees, what rules answer, watches, a scenario that is made, and a trace.
#![tactic(auto)]

#[cfg(test)]
mod generated;
#[cfg(test)]
mod guarantees;
#[cfg(test)]
mod rules;
#[cfg(test)]
mod streams;
#[cfg(test)]
mod traces;
#[cfg(test)]
mod watches;
