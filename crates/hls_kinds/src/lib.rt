//! What the definitions of the kinds of schedulers speak of: tenants and their terms, claims, shares, the room
//! that a scheduler has, and why a seat cannot be taken.
#![tactic(auto)]

mod fault;
pub mod laws;
mod reservations;
mod room;
mod stands;
mod tags;
mod tenant;

pub use fault::SeatFault;
pub use hls_chron::parts;
pub use reservations::{Claim, Reservation};
pub use room::{room_asked, room_total};
pub use stands::stands_idle;
pub use tags::Share;
pub use tenant::{Tenant, terms_at};
