// Who has a slot, and on which terms.
ghost use Rattle.std.specs.Prelude.{◌≡◌};
ghost use Rattle.hls_chron.specs.Seats.{terms_after, terms_at as terms_of};

use hls_chron::{Book, Event, Terms};

/// Who has a slot, by the marks of a book.
#[derive(Clone, Copy, Debug, PartialEq, Eq)]
pub enum Tenant {
    /// Nobody.
    Vacant,
    /// A seat on these terms, since the tick of its seating or of a later settling.
    Sits { terms: Terms, since: u32 },
    /// Nobody sits there: such a seat left at a tick, and no settling came after.
    Left { terms: Terms, since: u32, at: u32 },
}

/// The terms at a slot after an event.
fn terms_by(slot: u32, terms: Option<Terms>, event: Event) -> Option<Terms>
    ensures { result ≡ terms_after slot terms event }
{
    match event {
        Event::Seat { slot: at, terms } if u32::from(at) == slot => Some(terms),
        Event::Leave { slot: at } if u32::from(at) == slot => None,
        _ => terms,
    }
}

/// The terms of the seat at a slot, or none where nobody sits there.
#[tactic(auto, unfolding(hls_chron::specs::Seats::terms_at))]
pub fn terms_at(book: &Book, slot: u32) -> Option<Terms>
    ensures { result ≡ terms_of book.now slot }
{
    book.marks()
        .iter()
        .fold(None, |terms, mark| terms_by(slot, terms, mark.event))
}
