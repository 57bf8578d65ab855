//! What requests for a seat would be answered at a moment: what can be promised to a thread, and with which terms a
//! guarantee can be had.
#![tactic(auto)]

mod needs;
mod offers;
mod seats;
mod wish;

pub use needs::{Had, Need, need_on};
pub use offers::{Offer, offer_at};
pub use wish::{Wish, request};
