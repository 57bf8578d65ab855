//! What each kind of scheduler is to do, looked up in its book alone: who asks, which slot is to be served,
//! deadlines and budgets, tags, turns, places of a frame, and the room in use. Slow and plain.
#![tactic(auto)]

mod choice;
mod frames;
mod reservations;
mod room;
mod rows;
mod tags;
mod tenant;
mod turns;

pub use choice::{Ranking, asks_at, discipline_choice};
pub use frames::{owned_places, owner_now};
pub use reservations::{claim_at, is_held, is_soft};
pub use room::{occupant, room_used};
pub use tags::start_tag;
pub use tenant::tenant_at;
pub use turns::{turn_slot, turn_ticks};
