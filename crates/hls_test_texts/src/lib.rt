//! Texts of scenarios and of reports: what is read, what is written again, and the first line that cannot stand.
#![tactic(auto)]

#[cfg(test)]
mod printing;
#[cfg(test)]
mod reports;
#[cfg(test)]
mod scenarios;
