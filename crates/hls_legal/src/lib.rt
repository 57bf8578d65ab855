//! Which reports of a scenario are legal: what its commands and runs make of its threads (which are ready and
//! served in a tick, their stays, and the accounts to print), the defined answer to each command by the
//! hierarchy as it stands, and what every legal report keeps.
#![tactic(auto)]

pub mod laws;
mod stay;

pub use stay::Stay;
