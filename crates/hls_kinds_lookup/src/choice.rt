// The slot that a scheduler is to serve.
ghost use Rattle.std.specs.Prelude.{◌≡◌, ℕ, ◌+◌, ◌^◌, ◌<◌, false, IfSome, is_some};
ghost use Rattle.hls_chron.specs.Ledger.{now_of};
ghost use Rattle.hls_chron.specs.Seats.{priority_at as priority_of};
ghost use Rattle.hls_kinds.specs.Slots.{any_below, IsFirst};
ghost use Rattle.hls_kinds.specs.Asks.{asks as asks_of};
ghost use Rattle.hls_kinds.specs.Discipline.{Serves};
ghost use Rattle.hls_chron.specs.Ranges.{ConfigInRange};
ghost use Rattle.hls_kinds.specs.Reservations.{deadline_at as deadline_of, budget_at as budget_of};
ghost use Rattle.hls_kinds_lookup.specs.Rankings.{takes_part as takes_part_in, key_of, better_of, HasQuantum};

use crate::frames::owner_now;
use crate::reservations::{claim_at, is_soft};
use crate::rows::has_slot;
use crate::tags::start_tag;
use crate::turns::{turn_goes_on, turn_slot, turns_after};
use hls_chron::{Book, Config, Terms};
use hls_kinds::terms_at;

/// What slots are ranked by.
#[derive(Clone, Copy, Debug, PartialEq, Eq)]
pub enum Ranking {
    /// The priority numbers of the seats that ask.
    Priority,
    /// The deadlines of the asking seats with budget.
    Budget,
    /// The deadlines of the asking soft seats.
    Soft,
    /// The start tags of the slots that ask, in turns of a quantum.
    Tag { quantum: u32 },
    /// The places of the slots that ask, in the cyclic order after the slot of the turn.
    Turn,
}

/// A slot, and the key that it has in a ranking.
#[derive(Clone, Copy, Debug, PartialEq, Eq)]
struct Ranked {
    slot: u32,
    key: u128,
}

/// The priority number of the seat at a slot.
fn priority_at(book: &Book, slot: u32) -> Option<u32>
    ensures { result ≡ priority_of book.now slot }
{
    match terms_at(book, slot) {
        Some(Terms::Prio(priority)) => Some(priority),
        _ => None,
    }
}

/// The deadline of the reservation at a slot, or 0 where none sits there.
fn deadline_at(book: &Book, mask: u32, slot: u32) -> u64
    requires { now_of book.now + 1 < 2 ^ 32 }
    ensures { result ≡ deadline_of book.now mask slot }
{
    match claim_at(book, mask, slot) {
        None => 0,
        Some(claim) => claim.deadline,
    }
}

/// The budget of the reservation at a slot, or 0 where none sits there.
fn budget_at(book: &Book, mask: u32, slot: u32) -> u32
    requires { now_of book.now + 1 < 2 ^ 32 }
    ensures { result ≡ budget_of book.now mask slot }
{
    match claim_at(book, mask, slot) {
        None => 0,
        Some(claim) => claim.budget,
    }
}

/// Whether a slot takes part in a ranking.
fn takes_part(book: &Book, ranking: Ranking, mask: u32, slot: u32) -> bool
    requires { now_of book.now + 1 < 2 ^ 32 }
    ensures { result ≡ takes_part_in ranking book.now mask slot }
{
    match ranking {
        Ranking::Priority => has_slot(mask, slot) && priority_at(book, slot).is_some(),
        Ranking::Budget => has_slot(mask, slot) && 0 < budget_at(book, mask, slot),
        Ranking::Soft => has_slot(mask, slot) && is_soft(book, slot),
        Ranking::Tag { .. } => has_slot(mask, slot),
        Ranking::Turn => has_slot(mask, slot),
    }
}

/// The key of a slot in a ranking.
fn key(book: &Book, ranking: Ranking, mask: u32, slot: u32) -> u128
    requires now { now_of book.now + 1 < 2 ^ 32 }
    requires slot { slot < 32 }
    requires some { HasQuantum ranking }
    ensures { result ≡ key_of ranking book.now mask slot }
{
    match ranking {
        Ranking::Priority => match priority_at(book, slot) {
            None => 0,
            Some(priority) => u128::from(priority),
        },
        Ranking::Budget => u128::from(deadline_at(book, mask, slot)),
        Ranking::Soft => u128::from(deadline_at(book, mask, slot)),
        Ranking::Tag { quantum } => start_tag(book, quantum, book.now(), slot),
        Ranking::Turn => u128::from(turns_after(turn_slot(book), slot)),
    }
}

/// The better of two: the second where its key is less.
fn better(best: Option<Ranked>, other: Ranked) -> Ranked
    ensures { result ≡ better_of best other }
{
    match best {
        Some(held) if held.key <= other.key => held,
        _ => other,
    }
}

/// The slot of least key in a ranking, and the least such.
#[tactic(auto, using(crate::proofs::RankingLaws::best_laws))]
fn first_slot(book: &Book, ranking: Ranking, mask: u32) -> Option<u32>
    requires now { now_of book.now + 1 < 2 ^ 32 }
    requires some { HasQuantum ranking }
    ensures any { is_some result ≡ any_below (takes_part_in ranking book.now mask) 32 }
    ensures first { IfSome result
        (λ slot. IsFirst 32 (takes_part_in ranking book.now mask) (key_of ranking book.now mask) slot) }
{
    let mut best: Option<Ranked> = None;
    for slot in 0..32 {
        if takes_part(book, ranking, mask, slot) {
            let key = key(book, ranking, mask, slot);
            best = Some(better(best, Ranked { slot, key }));
        }
    }
    match best {
        None => None,
        Some(ranked) => Some(ranked.slot),
    }
}

/// The slot that a scheduler is to serve in the present tick, where these slots ask; `None` where
/// there is none. It is looked up in the book alone.
pub fn discipline_choice(book: &Book, config: &Config, mask: u32) -> Option<u32>
    requires range { ConfigInRange config.now }
    requires now { now_of book.now + 1 < 2 ^ 32 }
    ensures serves { IfSome result (λ slot. Serves config.now book.now mask slot) }
    ensures none { is_some result ≡ false → (slot : ℕ) → Serves config.now book.now mask slot → ⊥ }
{
    match *config {
        Config::Cpu => None,
        Config::Fp => first_slot(book, Ranking::Priority, mask),
        Config::Edf => match first_slot(book, Ranking::Budget, mask) {
            None => first_slot(book, Ranking::Soft, mask),
            Some(slot) => Some(slot),
        },
        Config::Sfq { quantum, .. } => {
            if turn_goes_on(book, quantum, mask) {
                Some(turn_slot(book))
            } else {
                first_slot(book, Ranking::Tag { quantum }, mask)
            }
        }
        Config::Rr { quantum } => {
            if turn_goes_on(book, quantum, mask) {
                Some(turn_slot(book))
            } else {
                first_slot(book, Ranking::Turn, mask)
            }
        }
        Config::Wheel { frame } => match owner_now(book, frame) {
            Some(owner) if has_slot(mask, u32::from(owner)) => Some(u32::from(owner)),
            _ => None,
        },
        Config::Join { .. } => { if has_slot(mask, 0) { Some(0) } else { None } }
    }
}

/// Whether a scheduler asks in the present tick, where these slots ask. It is looked up in the
/// book alone.
pub fn asks_at(book: &Book, config: &Config, mask: u32) -> bool
    requires range { ConfigInRange config.now }
    requires now { now_of book.now + 1 < 2 ^ 32 }
    ensures { result ≡ asks_of config.now book.now mask }
{
    match *config {
        Config::Cpu => false,
        Config::Edf => {
            first_slot(book, Ranking::Budget, mask).is_some()
                || first_slot(book, Ranking::Soft, mask).is_some()
        }
        Config::Wheel { frame } => match owner_now(book, frame) {
            None => false,
            Some(owner) => has_slot(mask, u32::from(owner)),
        },
        _ => mask != 0,
    }
}
