// The owners of the places of a wheel's frame.
ghost use Rattle.std.specs.Prelude.{◌≡◌, ℕ, ◌<◌, ◌≤◌};
ghost use Rattle.hls_kinds.specs.Frames.{owner_in, owner_at};
ghost use Rattle.hls_kinds.specs.Frames.{owner_now as owner_at_present, owned_places as owned};

use hls_chron::Book;
use hls_wheel_owners::{PLACES, apply, owned_below};

/// The owners of the places.
fn owners(book: &Book) -> [Option<u8>; PLACES]
    ensures { (place : ℕ) → place < 1000 → owner_in result place ≡ owner_at book.now place }
{
    let mut owners = [None; PLACES];
    for mark in book.marks() {
        apply(&mut owners, mark.event);
    }
    owners
}

/// The owner of the present tick's place, a slot.
pub fn owner_now(book: &Book, frame: u32) -> Option<u8>
    requires some { 0 < frame }
    requires most { frame ≤ 1000 }
    ensures { result ≡ owner_at_present frame book.now }
{
    let place = book.now() % frame;
    let owners = owners(book);
    owners[place as usize]
}

/// How many places of a frame are owned.
pub fn owned_places(book: &Book, frame: u32) -> u32
    requires { frame ≤ 1000 }
    ensures { result ≡ owned frame book.now }
{
    owned_below(&owners(book), frame)
}
