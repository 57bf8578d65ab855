// Tallies in little room.
ghost use Rattle.std.specs.Prelude.{◌≡◌, ◌+◌, ◌-◌, ◌<◌, ◌≤◌, ◌++◌, ◌∷◌, [], ℕ, true, length, slice_get, slice_set};
ghost use Rattle.std.specs.Prelude.{Some, OnOk, option_copied, option_map, option_to_list, reverse};
ghost use Rattle.hls_core_stays.specs.Tallies.{waited, opened_at};
ghost use Rattle.hls_core_stays.specs.Inside.Rows.{seating_at, seating_of, spare_of, tally_by};
ghost use Rattle.hls_core_stays.specs.Inside.Steps.{begun_tally, closed_tally, noted_tally, served_tally};
ghost use Rattle.hls_core_stays.specs.Inside.Steps.{swept, swept_rows};
ghost use Rattle.hls_core_stays.specs.Inside.Steps.{fresh_at};

use crate::places::Places;
use crate::row::{Row, Seating};
use crate::sums::{SEATINGS, sum_of_seating};
use crate::tally::Tally;
use hls_core_guesses::Guesses;
use hls_tree::NodeId;
use std::alloc::{AllocError, Global};
use std::marker::Model;

/// How many rows that were taken there may be before their memory is given back.
const SPARE: usize = 16384;

/// Tallies in their order. Name and guarantee are kept once for stays that share them. Contracts see the
/// tallies, and how many more can be pushed without memory.
#[derive(Drop)]
pub(crate) struct Tallies {
    rows: Vec<Row>,
    seatings: Vec<Seating>,
    guesses: Guesses,
}

impl Model for Tallies {
    ghost use Rattle.hls_core_stays.specs.Store.{Store};
    ghost use Rattle.hls_core_stays.specs.Inside.Rows.{AreSeated, store_of};

    ghost Value = { Store };

    ghost view = { λ t. store_of t.rows t.seatings };

    ghost invariant = { λ t. AreSeated t.seatings.items t.rows.items };
}

/// The tally of a row, with what its seating has.
fn tally_of(seatings: &[Seating], row: &Row) -> Tally
    requires { row.now.seating < length seatings.now }
    ensures { result ≡ tally_by seatings.now row.now }
{
    let Seating { name, kept } = seatings[row.seating];
    Tally {
        thread: row.thread,
        name,
        kept,
        since: row.since,
        until: row.until,
        ready: row.ready,
        ready_since: row.ready_since,
        served: row.served,
    }
}

/// Whether the seating at a place has the name and the guarantee of a tally.
fn is_seating_of(seatings: &[Seating], place: usize, tally: &Tally) -> bool
    ensures { result ≡ true → slice_get seatings.now place ≡ Some (seating_of tally.now) }
{
    match seatings.get(place) {
        Some(seating) => seating.is_of(tally),
        None => false,
    }
}

/// The place of a seating for a tally: the one that was guessed where it is right, or else one that is appended.
fn seat(seatings: &mut Vec<Seating>, guess: usize, tally: &Tally) -> usize
    requires { 0 < spare_of seatings.old }
    ensures seated { slice_get seatings.new.items result ≡ Some (seating_of tally.now) }
    ensures before { (at : ℕ) → at < length seatings.old.items →
        seating_at seatings.new.items at ≡ seating_at seatings.old.items at }
    ensures more { length seatings.old.items ≤ length seatings.new.items }
    ensures spare { spare_of seatings.old ≤ spare_of seatings.new + 1 }
{
    if is_seating_of(seatings, guess, tally) {
        return guess;
    }
    let place = seatings.len();
    seatings.push_reserved(Seating {
        name: tally.name,
        kept: tally.kept,
    });
    place
}

/// Drops the rows of stays of no tick from a place on. The others keep their order.
fn sweep_rows(rows: &mut Vec<Row>, places: &mut Places, from: usize)
    ensures { rows.new.items ≡ swept_rows from rows.old.items }
{
    let mut end = from;
    for at in from..rows.len() {
        let row = rows[at];
        if !row.lasts() {
            continue;
        }
        rows[end] = row;
        places.put(row.thread, end);
        end += 1;
    }
    rows.truncate(end);
}

impl Tallies {
    /// No tallies yet.
    pub(crate) fn new(alloc: Global) -> Tallies
        ensures { result.items ≡ [] }
    {
        Tallies {
            rows: Vec::new(alloc),
            seatings: Vec::new(alloc),
            guesses: Guesses::new(alloc),
        }
    }

    /// How many tallies there are.
    pub(crate) fn len(&self) -> usize
        ensures { result ≡ length self.now.items }
    {
        self.rows.len()
    }

    /// Makes room for so many tallies more.
    pub(crate) fn reserve(&mut self, count: usize) -> Result<(), AllocError>
        ensures items { self.new.items ≡ self.old.items }
        ensures room { OnOk result (count ≤ self.new.spare) }
    {
        self.rows.reserve(count)?;
        self.guesses.reserve(SEATINGS)?;
        self.seatings.reserve(count)
    }

    /// Whether a stay of a thread at a place is open.
    pub(crate) fn is_open_at(&self, place: usize, id: NodeId) -> bool
        ensures { result ≡ opened_at self.now.items place id }
    {
        match self.rows.get(place) {
            Some(row) => row.is_open(id),
            None => false,
        }
    }

    /// Whether a stay of a thread at a place is open and began at this tick.
    pub(crate) fn is_fresh_at(&self, place: usize, id: NodeId, now: u32) -> bool
        ensures { result ≡ fresh_at self.now.items place id now }
    {
        match self.rows.get(place) {
            Some(row) => row.is_fresh(id, now),
            None => false,
        }
    }

    /// The place of the open stay of a thread.
    pub(crate) fn search(&self, id: NodeId) -> usize
        ensures { (at : ℕ) → opened_at self.now.items at id ≡ true → opened_at self.now.items result id ≡ true }
    {
        for at in 0..self.len() {
            if self.is_open_at(at, id) {
                return at;
            }
        }
        0
    }

    /// Notes that the stay at a place ends.
    pub(crate) fn close_at(&mut self, place: usize, now: u32)
        requires { place < length self.old.items }
        ensures items { (tally : Tally) → slice_get self.old.items place ≡ Some tally →
            self.new.items ≡ slice_set self.old.items place (closed_tally now tally) }
        ensures spare { self.new.spare ≡ self.old.spare }
    {
        let mut row = self.rows[place];
        row.until = Some(now);
        self.rows[place] = row;
    }

    /// Notes whether the thread of the stay at a place is ready from now on.
    pub(crate) fn note_at(&mut self, place: usize, ready: bool, now: u32)
        requires place { place < length self.old.items }
        requires fits { (tally : Tally) → slice_get self.old.items place ≡ Some tally →
            tally.ready + waited now tally.ready_since ≤ now }
        ensures { (tally : Tally) → slice_get self.old.items place ≡ Some tally →
            self.new.items ≡ slice_set self.old.items place (noted_tally ready now tally) }
    {
        let mut row = self.rows[place];
        row.note(ready, now);
        self.rows[place] = row;
    }

    /// Counts so many ticks in which the thread of the stay at a place was served, and notes whether it is ready
    /// from now on.
    pub(crate) fn serve_at(&mut self, place: usize, ticks: u32, ready: bool, now: u32)
        requires place { place < length self.old.items }
        requires fits { (tally : Tally) → slice_get self.old.items place ≡ Some tally →
            tally.ready + waited now tally.ready_since ≤ now }
        requires served { (tally : Tally) → slice_get self.old.items place ≡ Some tally → tally.served + ticks ≤ now }
        ensures { (tally : Tally) → slice_get self.old.items place ≡ Some tally →
            self.new.items ≡ slice_set self.old.items place (noted_tally ready now (served_tally ticks tally)) }
    {
        let mut row = self.rows[place];
        row.served += ticks;
        row.note(ready, now);
        self.rows[place] = row;
    }

    /// Drops the stays of no tick from a place on. The others keep their order.
    pub(crate) fn sweep(&mut self, places: &mut Places, from: usize)
        ensures { self.new.items ≡ swept from self.old.items }
    {
        sweep_rows(&mut self.rows, places, from);
    }

    /// Appends a tally, into room that is there.
    pub(crate) fn push(&mut self, tally: Tally)
        requires { 0 < self.old.spare }
        ensures items { self.new.items ≡ self.old.items ++ tally ∷ [] }
        ensures spare { self.old.spare ≤ self.new.spare + 1 }
    {
        let sum = sum_of_seating(&tally);
        let guess = self.guesses.at(sum);
        let seating = seat(&mut self.seatings, guess, &tally);
        self.guesses.note(sum, seating);
        self.rows.push_reserved(Row {
            thread: tally.thread,
            seating,
            since: tally.since,
            until: tally.until,
            ready: tally.ready,
            ready_since: tally.ready_since,
            served: tally.served,
        });
    }

    /// The seating of the stay at a place, if there is one.
    pub(crate) fn seating(&self, place: usize) -> Option<&Seating>
        ensures { option_copied result ≡ option_map seating_of (slice_get self.now.items place) }
    {
        match self.rows.get(place) {
            Some(row) => Some(&self.seatings[row.seating]),
            None => None,
        }
    }

    /// Appends the tally of a stay that begins and shares the name and the guarantee of the stay at that place,
    /// into room that is there.
    pub(crate) fn push_like(
        &mut self,
        like: usize,
        thread: NodeId,
        since: u32,
        ready_since: Option<u32>,
    )
        requires like { like < length self.old.items }
        requires room { 0 < self.old.spare }
        ensures items { (tally : Tally) → slice_get self.old.items like ≡ Some tally →
            self.new.items ≡ self.old.items ++ begun_tally thread since ready_since (seating_of tally) ∷ [] }
        ensures spare { self.old.spare ≤ self.new.spare + 1 }
    {
        let seating = self.rows[like].seating;
        self.rows.push_reserved(Row {
            thread,
            seating,
            since,
            until: None,
            ready: 0,
            ready_since,
            served: 0,
        });
    }

    /// Turns the tallies round.
    pub(crate) fn reverse(&mut self)
        ensures { self.new.items ≡ reverse self.old.items }
    {
        self.rows.reverse();
    }

    /// Takes the last tally away. The memory of those that were taken is given back now and then.
    pub(crate) fn take_last(&mut self) -> Option<Tally>
        ensures items { self.old.items ≡ self.new.items ++ option_to_list result }
        ensures fewer { length self.new.items ≡ length self.old.items - 1 }
    {
        let last = self.rows.pop();
        if self.rows.capacity().saturating_sub(self.rows.len()) > SPARE {
            self.rows.shrink_to_fit();
        }
        let row = last?;
        Some(tally_of(&self.seatings, &row))
    }
}
