// A tournament over 32 slots.
ghost use Rattle.std.specs.Prelude.{◌≡◌, ◌+◌, ◌-◌, ◌*◌, ◌/◌, ◌<◌, None, Some, replicate, slice_set, MatchOption};
ghost use Rattle.hls_order.specs.Order.{IsEmpty, IsLeast, IsTournament, better as better_of, entry_of, key_of};
ghost use Rattle.hls_order.specs.Inside.Rising.{IsRightBut};

use std::marker::Model;

/// How many slots there are.
const SLOTS: usize = 32;

/// How many entries a tournament has. Those of the slots come last, and an entry is that one of the two behind it
/// that goes first.
const ENTRIES: usize = 63;

/// The entry of the first slot.
const FIRST: usize = 31;

/// What stands where no slot is present.
const NONE: u8 = 32;

/// At most 32 slots, each with a key. Contracts see it as the keys, slot by slot.
#[derive(Debug, Drop)]
pub struct Order {
    keys: [Option<u128>; SLOTS],
    winners: [u8; ENTRIES],
}

impl Model for Order {
    ghost use Rattle.std.specs.Prelude.{List, ℕ, Option};
    ghost use Rattle.hls_order.specs.Order.{IsTournament};

    ghost Value = { List (Option ℕ) };

    ghost view = { λ o. o.keys };

    ghost invariant = { λ o. IsTournament o.keys o.winners };
}

/// The key of a slot that is present.
fn key_at(keys: &[Option<u128>; SLOTS], slot: u8) -> Option<u128>
    ensures { result ≡ key_of keys.now slot }
{
    match keys.get(usize::from(slot)) {
        Some(key) => *key,
        None => None,
    }
}

/// An entry where its slot is present, else none.
fn present(keys: &[Option<u128>; SLOTS], entry: u8) -> u8
    ensures { result ≡ entry_of entry (key_of keys.now entry) }
{
    match key_at(keys, entry) {
        Some(_) => entry,
        None => NONE,
    }
}

/// That one of two entries which goes first.
fn better(keys: &[Option<u128>; SLOTS], one: u8, other: u8) -> u8
    ensures { result ≡ better_of keys.now one other }
{
    let Some(key) = key_at(keys, one) else {
        return present(keys, other);
    };
    let Some(its) = key_at(keys, other) else {
        return one;
    };
    if one <= other {
        if its < key { other } else { one }
    } else if key < its {
        one
    } else {
        other
    }
}

/// The entry that plays an entry.
fn beside(at: usize) -> usize
    requires some { 0 < at }
    requires within { at < 63 }
    ensures { result ≡ 4 * ((at - 1) / 2) + 3 - at }
{
    4 * ((at - 1) / 2) + 3 - at
}

/// Plays each game above an entry again, where what stands there is new.
fn replay(keys: &[Option<u128>; SLOTS], winners: &mut [u8; ENTRIES], from: usize)
    requires within { from < 63 }
    requires right { IsRightBut keys.now winners.old from }
    ensures { IsTournament keys.now winners.new }
{
    let mut winner = winners[from];
    let mut at = from;
    while at > 0 {
        winner = better(keys, winner, winners[beside(at)]);
        at = (at - 1) / 2;
        winners[at] = winner;
    }
}

/// What the least would be if this slot were taken out: only the games on its way up are played again.
fn first_but(keys: &[Option<u128>; SLOTS], winners: &[u8; ENTRIES], slot: u32) -> Option<u32>
    requires within { slot < 32 }
    requires right { IsTournament keys.now winners.now }
    ensures { MatchOption result (IsEmpty (slice_set keys.now slot None)) (IsLeast (slice_set keys.now slot None)) }
{
    let mut first = NONE;
    let mut at = FIRST + slot as usize;
    while at > 0 {
        first = better(keys, first, winners[beside(at)]);
        at = (at - 1) / 2;
    }
    if first < NONE {
        Some(u32::from(first))
    } else {
        None
    }
}

impl Order {
    /// No slot. Takes no memory.
    pub fn new() -> Order
        ensures { result ≡ replicate 32 None }
    {
        Order {
            keys: [None; SLOTS],
            winners: [NONE; ENTRIES],
        }
    }

    /// Gives a slot a key, whether it is present or not.
    pub fn put(&mut self, slot: u32, key: u128)
        requires { slot < 32 }
        ensures { self.new ≡ slice_set self.old slot (Some key) }
    {
        let at = slot as usize;
        self.keys[at] = Some(key);
        self.winners[FIRST + at] = slot as u8;
        replay(&self.keys, &mut self.winners, FIRST + at);
    }

    /// Takes a slot out, whether it is present or not.
    pub fn take(&mut self, slot: u32)
        requires { slot < 32 }
        ensures { self.new ≡ slice_set self.old slot None }
    {
        let at = slot as usize;
        self.keys[at] = None;
        self.winners[FIRST + at] = NONE;
        replay(&self.keys, &mut self.winners, FIRST + at);
    }

    /// The present slot of least key, and of these the least.
    pub fn least(&self) -> Option<u32>
        ensures { MatchOption result (IsEmpty self.now) (IsLeast self.now) }
    {
        let first = self.winners[0];
        if first < NONE {
            Some(u32::from(first))
        } else {
            None
        }
    }

    /// The key of a slot, where it is present.
    pub fn key(&self, slot: u32) -> Option<u128>
        requires { slot < 32 }
        ensures { result ≡ key_of self.now slot }
    {
        self.keys[slot as usize]
    }

    /// What the least would be if this slot were taken out.
    pub fn least_but(&self, slot: u32) -> Option<u32>
        requires { slot < 32 }
        ensures { MatchOption result (IsEmpty (slice_set self.now slot None)) (IsLeast (slice_set self.now slot None)) }
    {
        first_but(&self.keys, &self.winners, slot)
    }

    /// The entries: that of a slot is the slot, or 32 where it is absent; each of the others is that one of the two
    /// behind it which goes first. The first entry is the least slot, or 32.
    pub fn winners(&self) -> &[u8; ENTRIES]
        ensures { IsTournament self.now result.now }
    {
        &self.winners
    }
}
