// Which seats of a scheduler can be taken, by its configuration and its book alone.
ghost use Rattle.std.specs.Prelude.{◌≡◌, ℕ, ◌↔◌, Some, IsTrue, IfSome, IsNone};
ghost use Rattle.hls_chron.specs.Ledger.{Ledger};
ghost use Rattle.hls_chron.specs.Ranges.{ConfigInRange, most_slots};
ghost use Rattle.hls_chron.specs.Seats.{priority_at, most_seats as seats_in};
ghost use Rattle.hls_kinds.specs.Faults.{Applies, fault_number};
ghost use Rattle.hls_kinds.specs.Fits.{Exceeds};
ghost use Rattle.hls_kinds.specs.Room.{IsFree, IsFull, LacksRoom};
ghost use Rattle.hls_legal.specs.Refusals.{seats_taken as taken_in};
ghost use Rattle.hls_test_answers.specs.Taking.{HasPriorityBelow};

use hls_chron::{Book, Config, SLOTS, Terms};
use hls_kinds::{SeatFault, room_asked, room_total, terms_at};
use hls_kinds_lookup::{occupant, room_used};

/// How many seats a scheduler has.
pub fn most_seats(config: &Config) -> u32
    ensures { result ≡ seats_in config.now }
{
    if let Some(sharing) = config.sharing() {
        return sharing.most;
    }
    match *config {
        Config::Join { .. } | Config::Cpu => 1,
        _ => SLOTS,
    }
}

/// How many seats are taken.
#[tactic(auto, using(hls_kinds::proofs::TickLaws::tick_laws))]
pub fn seats_taken(book: &Book) -> u32
    ensures { result ≡ taken_in book.now }
{
    let mut taken = 0;
    for slot in 0..SLOTS {
        if terms_at(book, slot).is_some() {
            taken += 1;
        }
    }
    taken
}

/// The least slot that is neither taken nor held, or `None` where there is none.
pub fn free_slot(book: &Book, config: &Config) -> Option<u32>
    ensures free { IfSome result (IsFree config.now book.now) }
    ensures full { IsNone result → IsFull config.now book.now }
{
    for slot in 0..most_seats(config) {
        if occupant(book, config, slot).is_none() {
            return Some(slot);
        }
    }
    None
}

/// Whether more of the frame or of the total is asked than there is.
fn exceeds(config: &Config, terms: &Terms) -> bool
    ensures { IsTrue result ↔ Exceeds config.now terms.now }
{
    if let (Some(sharing), Terms::Weight(weight)) = (config.sharing(), *terms) {
        return sharing.total < weight;
    }
    match (*config, *terms) {
        (Config::Wheel { frame }, Terms::Slots(places)) => frame < places,
        _ => false,
    }
}

/// That the terms are unfit, if they are.
fn unfit(config: &Config, terms: &Terms) -> Option<SeatFault>
    ensures some { IfSome result (λ fault. ((b : Ledger) → Applies config.now b terms.now fault) ×
        (fault_number fault ≡ 16)) }
    ensures none { IsNone result → (b : Ledger) → ¬ Applies config.now b terms.now SeatFault.Unfit }
{
    if terms.kind() != config.kind() || exceeds(config, terms) {
        Some(SeatFault::Unfit)
    } else {
        None
    }
}

/// Whether the seat at a slot has a priority number.
fn is_of_priority(book: &Book, slot: u32, priority: u32) -> bool
    ensures { IsTrue result ↔ (priority_at book.now slot ≡ Some priority) }
{
    match terms_at(book, slot) {
        Some(Terms::Prio(other)) => other == priority,
        _ => false,
    }
}

/// Whether one of the seats has a priority number.
fn has_priority(book: &Book, priority: u32) -> bool
    ensures { IsTrue result ↔ HasPriorityBelow most_slots book.now priority }
{
    for slot in 0..SLOTS {
        if is_of_priority(book, slot, priority) {
            return true;
        }
    }
    false
}

/// That a seat has the priority number that is asked for, if one has.
fn outranked(book: &Book, config: &Config, terms: &Terms) -> Option<SeatFault>
    ensures some { IfSome result (λ fault. Applies config.now book.now terms.now fault × (fault_number fault ≡ 17)) }
    ensures none { IsNone result → (priority : ℕ) → terms.now ≡ Terms.Prio priority →
        ¬ HasPriorityBelow most_slots book.now priority }
{
    match *terms {
        Terms::Prio(priority) if has_priority(book, priority) => {
            Some(SeatFault::PriorityTaken { priority })
        }
        _ => None,
    }
}

/// That no slot is free, if none is.
fn full(book: &Book, config: &Config, terms: &Terms) -> Option<SeatFault>
    ensures some { IfSome result (λ fault. Applies config.now book.now terms.now fault × (fault_number fault ≡ 18)) }
    ensures none { IsNone result → ¬ IsFull config.now book.now }
{
    match free_slot(book, config) {
        Some(_) => None,
        None => Some(SeatFault::Full {
            seats: most_seats(config),
        }),
    }
}

/// That more is asked than is free, if it is so.
fn lacking(book: &Book, config: &Config, terms: &Terms) -> Option<SeatFault>
    requires { ConfigInRange config.now }
    ensures some { IfSome result (λ fault. Applies config.now book.now terms.now fault × (fault_number fault ≡ 23)) }
    ensures none { IsNone result → (free asked : ℕ) → ¬ LacksRoom config.now book.now terms.now free asked }
{
    let free = room_total(config).saturating_sub(room_used(book, config));
    let asked = room_asked(config, terms);
    if free < asked {
        Some(SeatFault::NoRoom { free, asked })
    } else {
        None
    }
}

/// The fault of a number that a further seat on these terms has, if it has one.
pub fn fault_of(number: u32, book: &Book, config: &Config, terms: &Terms) -> Option<SeatFault>
    requires { ConfigInRange config.now }
    ensures { IfSome result (λ fault. Applies config.now book.now terms.now fault ×
        (fault_number fault ≡ number)) }
{
    match number {
        16 => unfit(config, terms),
        17 => outranked(book, config, terms),
        18 => full(book, config, terms),
        23 => lacking(book, config, terms),
        _ => None,
    }
}
