// Rows of runs, in little room.
ghost use Rattle.std.specs.Prelude.{◌≡◌, ◌<◌, ◌≤◌, ◌-◌, ◌++◌, ◌∷◌, [], List, None, IfOk, IfSome, IsTrue};
ghost use Rattle.std.specs.Prelude.{MatchOption, length, option_to_list, slice_get, vec_capacity};
ghost use Rattle.hls_core_journal.specs.declared.kept_rows.Row.{Row as RowSeen};
ghost use Rattle.hls_core_journal.specs.declared.kept_rows.Held.TheVariants.{One, Two};
ghost use Rattle.hls_core_journal.specs.Inside.Shorts.{row_behind, held, rows_held, end_held, longs_behind};
ghost use Rattle.hls_core_journal.specs.Inside.Shorts.{long_next, longs_rest, IsPut};

use std::alloc::{AllocError, Global};
use std::marker::Model;

/// A run whose path stands among others.
#[derive(Clone, Copy, Debug)]
pub(crate) struct Row {
    pub(crate) from: u32,
    pub(crate) to: u32,
    pub(crate) way: u32,
}

/// One row or two, in two bytes.
///
/// - With a second byte of 128 and up it is one row: the first byte is its path, and the second its ticks and 128.
/// - With one of 1 to 127 it is a pair: each byte is a row, its path times 16 and its ticks, of which there are up to
///   15. The path is one of the first 16, and in the second byte one of the first 8.
/// - With 0 it stands for the next of the long rows, which are kept aside.
///
/// A row begins one tick behind the one before it, unless it is a long one.
#[derive(Clone, Copy, Debug)]
struct Short {
    first: u8,
    second: u8,
}

// There may be a million.
const _: () = prove!(size_of::<Short>() == 2);

/// What a short one holds.
#[derive(Clone, Copy)]
enum Held {
    Long,
    One(Row),
    Two(Row, Row),
}

/// The tick before the first: in 32 bits, the next one is 0.
const BEFORE: u32 = u32::MAX;

/// A row of so many ticks behind a tick.
fn row_behind(before: u32, way: u8, ticks: u8) -> Row
    ensures { result ≡ row_behind before way ticks }
{
    Row {
        from: before.wrapping_add(1),
        to: before.wrapping_add(u32::from(ticks)),
        way: u32::from(way),
    }
}

/// What a short one holds behind a tick.
#[tactic(auto, unfolding(crate::specs::Inside::Shorts::held))]
fn unpack(before: u32, short: Short) -> Held
    ensures { result ≡ held before short }
{
    if short.second >= 128 {
        return Held::One(row_behind(before, short.first, short.second - 128));
    }
    if short.second == 0 {
        return Held::Long;
    }
    let row = row_behind(before, short.first / 16, short.first % 16);
    Held::Two(
        row,
        row_behind(row.to, short.second / 16, short.second % 16),
    )
}

/// Whether two rows are the same.
fn is_same(one: Row, other: Row) -> bool
    ensures { IsTrue result → one ≡ other }
{
    one.from == other.from && one.to == other.to && one.way == other.way
}

/// The short one that stands for a row behind a tick, if there is one.
fn short_of(before: u32, row: Row) -> Option<Short>
    ensures { IfSome result (λ short. held before short ≡ One row) }
{
    let short = Short {
        first: (row.way % 256) as u8,
        second: 128 + (row.to.wrapping_sub(before) % 128) as u8,
    };
    match unpack(before, short) {
        Held::One(one) if is_same(one, row) => Some(short),
        _ => None,
    }
}

/// The byte of a row in a pair, if it fits into one.
fn byte_of(before: u32, row: Row) -> u8 {
    (row.way % 16 * 16 + row.to.wrapping_sub(before) % 16) as u8
}

/// The short one that stands for two rows behind a tick, if there is one.
fn pair_of(before: u32, row: Row, next: Row) -> Option<Short>
    ensures { IfSome result (λ short. held before short ≡ Two row next) }
{
    if row.way >= 16 || next.way >= 8 {
        return None;
    }
    let short = Short {
        first: byte_of(before, row),
        second: byte_of(row.to, next) % 128,
    };
    match unpack(before, short) {
        Held::Two(one, other) if is_same(one, row) && is_same(other, next) => Some(short),
        _ => None,
    }
}

/// Puts a row behind others, into room that is there.
#[tactic(auto, unfolding(crate::specs::Inside::Shorts::held))]
fn put_row(shorts: &mut Vec<Short>, longs: &mut Vec<Row>, before: u32, row: Row)
    requires shorts { length shorts.old.items < vec_capacity shorts.old }
    requires longs { length longs.old.items < vec_capacity longs.old }
    ensures put { IsPut before (row ∷ []) row.to shorts.old.items longs.old.items shorts.new.items longs.new.items }
    ensures room { vec_capacity shorts.new ≡ vec_capacity shorts.old }
    ensures longs_room { vec_capacity longs.new ≡ vec_capacity longs.old }
{
    match short_of(before, row) {
        Some(short) => shorts.push_reserved(short),
        None => {
            longs.push_reserved(row);
            shorts.push_reserved(Short {
                first: 0,
                second: 0,
            });
        }
    }
}

/// Rows that are left to be read: the second of a pair whose first was read comes before the others.
#[derive(Debug, Drop)]
pub(crate) struct Left<'a> {
    partner: Option<Row>,
    shorts: &'a [Short],
    longs: &'a [Row],
    before: u32,
    waiting: Option<Row>,
    last: Option<Row>,
}

impl<'a> Left<'a> {
    ghost use Rattle.hls_core_journal.specs.Inside.Left.{left_rows};

    /// The next of the long rows.
    fn long(&mut self) -> Row
        ensures row { result ≡ long_next self.old.longs.now }
        ensures longs { self.new.longs.now ≡ longs_rest self.old.longs.now }
        ensures others { self.new ≡ record self.old { longs = self.new.longs } }
    {
        match self.longs.split_first() {
            Some((long, longs)) => {
                self.longs = longs;
                *long
            }
            None => Row {
                from: 0,
                to: 0,
                way: 0,
            },
        }
    }

    /// The first of the rows that the next short one holds. A second one becomes the next row.
    fn first_of(&mut self, held: Held) -> Row
        requires { self.old.partner ≡ None }
        ensures rows { result ∷ option_to_list self.new.partner ≡ rows_held held self.old.longs.now }
        ensures before { self.new.before ≡ end_held held self.old.longs.now }
        ensures longs { self.new.longs.now ≡ longs_behind held self.old.longs.now }
        ensures others { self.new ≡ record self.old {
          partner = self.new.partner;
          longs = self.new.longs;
          before = self.new.before;
        } }
    {
        match held {
            Held::Long => {
                let row = self.long();
                self.before = row.to;
                row
            }
            Held::One(row) => {
                self.before = row.to;
                row
            }
            Held::Two(row, next) => {
                self.before = next.to;
                self.partner = Some(next);
                row
            }
        }
    }

    /// The next row.
    pub(crate) fn next(&mut self) -> Option<Row>
        ensures { MatchOption result (left_rows self.old ≡ [])
            (λ row. left_rows self.old ≡ row ∷ left_rows self.new) }
    {
        if let Some(row) = self.partner.take() {
            return Some(row);
        }
        if let Some((short, shorts)) = self.shorts.split_first() {
            self.shorts = shorts;
            return Some(self.first_of(unpack(self.before, *short)));
        }
        if let Some(row) = self.waiting.take() {
            return Some(row);
        }
        self.last.take()
    }
}

/// Rows that are closed, in their order and in little room: two of few ticks, one behind the other, share a short
/// one. So one waits until the next is closed. Contracts see the rows, and how many there may be.
#[derive(Debug, Drop)]
struct Closed {
    shorts: Vec<Short>,
    longs: Vec<Row>,
    before: u32,
    waiting: Option<Row>,
}

impl Model for Closed {
    ghost use Rattle.hls_core_journal.specs.Inside.Shorts.{RowStore, AreClosed, closed_store};

    ghost Value = { RowStore };

    ghost view = { λ c. closed_store c.shorts c.longs c.waiting };

    ghost invariant = { λ c. AreClosed c.shorts.items c.longs.items c.before };
}

impl Closed {
    ghost use Rattle.hls_core_journal.specs.Inside.Left.{left_rows};

    /// No rows, with room for so many.
    fn with_capacity(alloc: Global, count: u32) -> Result<Closed, AllocError>
        ensures { IfOk result (λ closed. (closed.items ≡ []) × (count ≤ closed.capacity)) }
    {
        Ok(Closed {
            shorts: Vec::with_capacity(alloc, count as usize)?,
            longs: Vec::with_capacity(alloc, count as usize)?,
            before: BEFORE,
            waiting: None,
        })
    }

    /// Appends a row, into room that is there.
    fn push(&mut self, row: Row)
        requires { length self.old.items < self.old.capacity }
        ensures items { self.new.items ≡ self.old.items ++ row ∷ [] }
        ensures capacity { self.new.capacity ≡ self.old.capacity }
    {
        let Some(waiting) = self.waiting else {
            self.waiting = Some(row);
            return;
        };
        if let Some(pair) = pair_of(self.before, waiting, row) {
            self.shorts.push_reserved(pair);
            self.before = row.to;
            self.waiting = None;
            return;
        }
        put_row(&mut self.shorts, &mut self.longs, self.before, waiting);
        self.before = waiting.to;
        self.waiting = Some(row);
    }

    /// All rows and one behind them, to be read in their order.
    fn left(&self, last: Option<Row>) -> Left<'_>
        ensures { left_rows result ≡ self.now.items ++ option_to_list last }
    {
        Left {
            partner: None,
            shorts: &self.shorts,
            longs: &self.longs,
            before: BEFORE,
            waiting: self.waiting,
            last,
        }
    }
}

/// Rows in their order. All but the last, which may still become longer, are closed. Contracts see the rows, and
/// how many there may be.
#[derive(Debug, Drop)]
pub(crate) struct Rows {
    closed: Closed,
    last: Option<Row>,
}

impl Model for Rows {
    ghost use Rattle.hls_core_journal.specs.Inside.Shorts.{RowStore, IsEnded, row_store};

    ghost Value = { RowStore };

    ghost view = { λ r. row_store r.closed r.last };

    ghost invariant = { λ r. IsEnded r.last r.closed };
}

impl Rows {
    ghost use Rattle.hls_core_journal.specs.Inside.Left.{left_rows};

    /// No rows, with room for so many.
    pub(crate) fn with_capacity(alloc: Global, count: u32) -> Result<Rows, AllocError>
        ensures { IfOk result (λ rows. (rows.items ≡ []) × (count ≤ rows.capacity)) }
    {
        Ok(Rows {
            closed: Closed::with_capacity(alloc, count)?,
            last: None,
        })
    }

    /// How many rows there are at most.
    pub(crate) fn most(&self) -> usize {
        (2 * self.closed.shorts.len()).saturating_add(2)
    }

    /// The last row, if there is one.
    pub(crate) fn last(&self) -> Option<Row>
        ensures { result ≡ slice_get self.now.items (length self.now.items - 1) }
    {
        self.last
    }

    /// Lets the last row last up to a tick.
    pub(crate) fn lengthen(&mut self, tick: u32)
        ensures last { (front : List RowSeen) (row : RowSeen) → self.old.items ≡ front ++ row ∷ [] →
            self.new.items ≡ front ++ (record row { to = tick }) ∷ [] }
        ensures count { length self.new.items ≡ length self.old.items }
        ensures capacity { self.new.capacity ≡ self.old.capacity }
    {
        if let Some(row) = &mut self.last {
            row.to = tick;
        }
    }

    /// Appends a row, into room that is there.
    pub(crate) fn push(&mut self, row: Row)
        requires { length self.old.items < self.old.capacity }
        ensures items { self.new.items ≡ self.old.items ++ row ∷ [] }
        ensures capacity { self.new.capacity ≡ self.old.capacity }
    {
        if let Some(last) = self.last {
            self.closed.push(last);
        }
        self.last = Some(row);
    }

    /// All rows, to be read in their order.
    pub(crate) fn left(&self) -> Left<'_>
        ensures { left_rows result ≡ self.now.items }
    {
        self.closed.left(self.last)
    }
}
