//! The program as it is used: its words, reports in which one clause fails or two, reports that were changed, reads
//! and writes that fail, lines that are no commands, and the largest scenarios and reports.
#![tactic(auto)]

#[cfg(test)]
mod changes;
#[cfg(test)]
mod clauses;
#[cfg(test)]
mod faults;
#[cfg(test)]
mod largest;
#[cfg(test)]
mod lines;
#[cfg(test)]
mod longest;
#[cfg(test)]
mod many;
#[cfg(test)]
mod order;
#[cfg(test)]
mod running;
#[cfg(test)]
mod sizes;
#[cfg(test)]
mod verdicts;
#[cfg(test)]
mod words;
