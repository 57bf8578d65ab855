//! Commands on a tree: each is answered as it is to be, and changes the tree as it says or not at all.
#![tactic(auto)]

mod admitting;
mod aiming;
mod asking;
mod derivations;
mod heights;
mod hindrances;
mod loading;
mod lookups;
mod ports;
mod rederiving;
mod refusing;
mod settling;
mod shifting;
mod threads;
mod withdrawals;

pub use admitting::admit;
pub use asking::ask;
pub use derivations::haves_of;
pub use lookups::find_thread;
pub use rederiving::{Rederived, rederive};
pub use shifting::shift;
pub use withdrawals::withdraw;
