// Runs of ticks with one path, in little room.
ghost use Rattle.std.specs.Prelude.{◌≡◌, ◌↔◌, ◌+◌, ◌-◌, ◌<◌, ◌≤◌, ◌^◌, ◌++◌, ◌∷◌, [], List, Option, Some, All};
ghost use Rattle.std.specs.Prelude.{IfOk, IsTrue, ℕ, length, option_copied, option_map, slice_get};
ghost use Rattle.std.specs.Prelude.{vec_capacity};
ghost use Rattle.hls_report_text.specs.declared.report.Path.{Path};
ghost use Rattle.hls_report_text.specs.declared.report.Run.{Run};
ghost use Rattle.hls_report_text.specs.WellFormed.{HasShort};
ghost use Rattle.hls_core_journal.specs.declared.kept_rows.Row.{Row as RowSeen};
ghost use Rattle.hls_core_journal.specs.Ways.{names_by, last_names, IsLonger};
ghost use Rattle.hls_core_journal.specs.Inside.Rows.{way_at, run_by, runs_by};

use crate::kept_rows::{Row, Rows};
use crate::sums::{WAYS, sum_of_all, sum_of_last};
use crate::ways::same_way;
use hls_chron::Name;
use hls_core_guesses::Guesses;
use hls_report_text::{Path, Run};
use indexmap::IndexSet;
use std::alloc::{AllocError, Global};
use std::marker::Model;

// There may be a million.
const _: () = prove!(size_of::<Option<Path>>() == 22);

/// Runs in their order. A path is kept once for runs that share it. Contracts see the runs, and how many there
/// may be.
#[derive(Debug, Drop)]
pub(crate) struct Runs {
    rows: Rows,
    ways: Vec<Option<Path>>,
    guesses: Guesses,
}

impl Model for Runs {
    ghost use Rattle.hls_core_journal.specs.Store.{Store};
    ghost use Rattle.hls_core_journal.specs.Inside.Rows.{AreRows, store_of};

    ghost Value = { Store };

    ghost view = { λ r. store_of r.rows r.ways };

    ghost invariant = { λ r. AreRows r.ways.items r.rows.items };
}

/// The run of a row.
fn run_of(ways: &[Option<Path>], row: &Row) -> Run
    requires { row.now.way < length ways.now }
    ensures { result ≡ run_by ways.now row.now }
{
    Run {
        from: row.from,
        to: row.to,
        path: ways[row.way as usize],
    }
}

/// The runs of rows.
fn runs_of(alloc: Global, ways: &[Option<Path>], rows: &Rows) -> Result<Vec<Run>, AllocError>
    requires { All (λ row. row.way < length ways.now) rows.now.items }
    ensures { IfOk result (λ runs. runs.items ≡ runs_by ways.now rows.now.items) }
{
    let mut runs = Vec::with_capacity(alloc, rows.most())?;
    let mut left = rows.left();
    while let Some(row) = left.next() {
        runs.push(run_of(ways, &row))?;
    }
    Ok(runs)
}

/// Whether a path is kept at a place.
fn is_way_at(ways: &[Option<Path>], place: usize, path: &Option<Path>) -> bool
    ensures { IsTrue result → slice_get ways.now place ≡ Some path.now }
{
    match ways.get(place) {
        Some(way) => *way == *path,
        None => false,
    }
}

/// The place of a path: the one that was guessed where it is right, or else one that is appended.
fn keep_way(ways: &mut Vec<Option<Path>>, guess: usize, path: Option<Path>) -> usize
    requires { length ways.old.items < vec_capacity ways.old }
    ensures kept { slice_get ways.new.items result ≡ Some path }
    ensures before { (at : ℕ) → at < length ways.old.items → way_at ways.new.items at ≡ way_at ways.old.items at }
    ensures more { length ways.old.items ≤ length ways.new.items }
    ensures few { length ways.new.items ≤ length ways.old.items + 1 }
    ensures capacity { vec_capacity ways.new ≡ vec_capacity ways.old }
{
    if is_way_at(ways, guess, &path) {
        return guess;
    }
    let place = ways.len();
    ways.push_reserved(path);
    place
}

/// The place of a path: where its last place or, below a join, all of them let guess it, or else one that is appended.
fn place_way(guesses: &mut Guesses, ways: &mut Vec<Option<Path>>, path: Option<Path>) -> usize
    requires { length ways.old.items < vec_capacity ways.old }
    ensures kept { slice_get ways.new.items result ≡ Some path }
    ensures before { (at : ℕ) → at < length ways.old.items → way_at ways.new.items at ≡ way_at ways.old.items at }
    ensures more { length ways.old.items ≤ length ways.new.items }
    ensures few { length ways.new.items ≤ length ways.old.items + 1 }
    ensures capacity { vec_capacity ways.new ≡ vec_capacity ways.old }
{
    let last = sum_of_last(&path);
    let guess = guesses.at(last);
    if is_way_at(ways, guess, &path) {
        return guess;
    }
    let all = sum_of_all(&path);
    let place = keep_way(ways, guesses.at(all), path);
    guesses.note(all, place);
    guesses.note(last, place);
    place
}

impl Runs {
    /// No runs, with room for so many.
    pub(crate) fn with_capacity(alloc: Global, count: u32) -> Result<Runs, AllocError>
        ensures { IfOk result (λ runs. (runs.items ≡ []) × (count ≤ runs.capacity)) }
    {
        let mut guesses = Guesses::new(alloc);
        guesses.reserve(WAYS)?;
        Ok(Runs {
            rows: Rows::with_capacity(alloc, count)?,
            ways: Vec::with_capacity(alloc, count as usize)?,
            guesses,
        })
    }

    /// The path of the last run, if there is one.
    fn last_path(&self) -> Option<&Option<Path>>
        ensures { option_copied result ≡ option_map (λ (run : Run). run.path)
            (slice_get self.now.items (length self.now.items - 1)) }
    {
        match self.rows.last() {
            Some(row) => Some(&self.ways[row.way as usize]),
            None => None,
        }
    }

    /// Lets the last run last up to a tick.
    pub(crate) fn lengthen(&mut self, tick: u32)
        ensures last { (front : List Run) (run : Run) → self.old.items ≡ front ++ run ∷ [] →
            self.new.items ≡ front ++ (record run { to = tick }) ∷ [] }
        ensures capacity { self.new.capacity ≡ self.old.capacity }
    {
        self.rows.lengthen(tick);
    }

    /// Appends a run of one tick, into room that is there.
    fn push(&mut self, tick: u32, path: Option<Path>)
        requires { length self.old.items < self.old.capacity }
        ensures items { self.new.items ≡ self.old.items ++ (record { from = tick; to = tick; path = path }) ∷ [] }
        ensures capacity { self.new.capacity ≡ self.old.capacity }
    {
        let way = place_way(&mut self.guesses, &mut self.ways, path);
        self.rows.push(Row {
            from: tick,
            to: tick,
            way: way as u32,
        });
    }

    /// The runs as they are kept: rows, and the paths that they share.
    pub(crate) fn into_rows(self) -> (Rows, Vec<Option<Path>>)
        ensures known { All (λ (row : RowSeen). row.way < length result.1.items) result.0.items }
        ensures runs { runs_by result.1.items result.0.items ≡ self.items }
    {
        let Runs {
            rows,
            ways,
            guesses: _,
        } = self;
        (rows, ways)
    }

    /// The runs as a list.
    ///
    /// # Errors
    /// Returns `AllocError` for want of memory.
    pub(crate) fn to_vec(&self, alloc: Global) -> Result<Vec<Run>, AllocError>
        ensures { IfOk result (λ runs. runs.items ≡ self.now.items) }
    {
        runs_of(alloc, &self.ways, &self.rows)
    }
}

/// Whether the last run has the same path.
fn goes_on(names: &IndexSet<Name>, runs: &Runs, path: &Option<Path>) -> bool
    requires path { HasShort path.now }
    requires runs { All (λ (run : Run). HasShort run.path) runs.now.items }
    ensures { IsTrue result ↔ (last_names names.now.keys runs.now.items ≡ Some (names_by names.now.keys path.now)) }
{
    match runs.last_path() {
        Some(last) => same_way(names, last, path),
        None => false,
    }
}

/// Puts a tick behind the runs of those before it, into room that is there.
pub(crate) fn put_tick(names: &IndexSet<Name>, runs: &mut Runs, tick: u32, path: Option<Path>)
    requires path { HasShort path }
    requires runs { All (λ (run : Run). HasShort run.path) runs.old.items }
    requires room { length runs.old.items < runs.old.capacity }
    ensures longer { IsLonger names.now.keys tick path runs.old.items runs.new.items }
    ensures capacity { runs.new.capacity ≡ runs.old.capacity }
{
    if goes_on(names, runs, &path) {
        runs.lengthen(tick);
        return;
    }
    runs.push(tick, path);
}
