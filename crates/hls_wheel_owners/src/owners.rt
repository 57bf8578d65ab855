// The owners of the places of a frame.
ghost use Rattle.std.specs.Prelude.{◌≡◌, ℕ, ◌<◌, ◌≤◌, is_some, length};
ghost use Rattle.hls_chron.specs.Ticks.{count};
ghost use Rattle.hls_kinds.specs.Frames.{owner_in, owner_seated, owner_after};

use hls_chron::{Event, Terms};

/// The most places that a frame has.
pub const PLACES: usize = 1000;

/// A seating takes the least free places.
#[tactic(auto, using(hls_kinds::proofs::TickLaws::tick_laws))]
fn seat(owners: &mut [Option<u8>], slot: u8, places: u32)
    requires { length owners.old ≡ 1000 }
    ensures size { length owners.new ≡ 1000 }
    ensures seated { (place : ℕ) → place < 1000
        → owner_in owners.new place ≡ owner_seated (owner_in owners.old) slot (Terms.Slots places) place }
{
    let mut free = 0;
    for place in 0..PLACES {
        if free == places {
            return;
        }
        if owners[place].is_none() {
            owners[place] = Some(slot);
            free += 1;
        }
    }
}

/// A leaving frees the places of a slot.
fn leave(owners: &mut [Option<u8>], slot: u8)
    requires { length owners.old ≡ 1000 }
    ensures size { length owners.new ≡ 1000 }
    ensures left { (place : ℕ) → place < 1000
        → owner_in owners.new place ≡ owner_after (owner_in owners.old) (Event.Leave slot) place }
{
    for place in 0..PLACES {
        if owners[place] == Some(slot) {
            owners[place] = None;
        }
    }
}

/// Lets an event change the owners.
pub fn apply(owners: &mut [Option<u8>], event: Event)
    requires { length owners.old ≡ 1000 }
    ensures size { length owners.new ≡ 1000 }
    ensures applied { (place : ℕ) → place < 1000
        → owner_in owners.new place ≡ owner_after (owner_in owners.old) event place }
{
    match event {
        Event::Seat {
            slot,
            terms: Terms::Slots(places),
        } => seat(owners, slot, places),
        Event::Leave { slot } => leave(owners, slot),
        _ => {}
    }
}

/// How many of the places below one are owned.
#[tactic(auto, using(hls_kinds::proofs::TickLaws::tick_laws))]
pub fn owned_below(owners: &[Option<u8>], frame: u32) -> u32
    requires size { length owners.now ≡ 1000 }
    requires most { frame ≤ 1000 }
    ensures { result ≡ count (λ place. is_some (owner_in owners.now place)) 0 frame }
{
    let mut counted = 0;
    for place in 0..frame {
        if owners[place as usize].is_some() {
            counted += 1;
        }
    }
    counted
}
