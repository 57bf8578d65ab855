// What is so of rows, tick by tick.
ghost use Rattle.std.specs.Prelude.{◌≡◌, ◌<◌, ◌≤◌, ◌+◌, [], IfOk, OnOk, Some, false, true, get_or, is_none};
ghost use Rattle.std.specs.Prelude.{length, map, option_map};
ghost use Rattle.hls_report_text.specs.Content.{content_of, path_names};
ghost use Rattle.hls_report_text.specs.WellFormed.{HasShort, IsWellFormed};
ghost use Rattle.hls_legal.specs.Schedule.{path_at};
ghost use Rattle.hls_view_lanes.specs.Rows.{ways_at};
ghost use Rattle.hls_view_lanes.specs.Facts as told;
ghost use Rattle.hls_view_lanes.specs.Inside.Paths.{AreNamed, path_in};
ghost use Rattle.hls_view_lanes.specs.Inside.Telling.{IsTelling, IsRenewed, IsTellingOf, tallies, through_of};

use crate::asking::asking_of;
use crate::paths::{given, path_of};
use crate::present::Present;
use crate::readings::Readings;
use crate::tallies::{Tally, add_facts, no_tallies};
use crate::tick_facts::{Facts, all_facts, all_through};
use crate::ways::ways_of;
use hls_chron::List;
use hls_report_text::{Path, Report};
use hls_view_tale::{Following, Label};
use std::alloc::{AllocError, Global};

/// Rows, and what is found of the report as it is asked for.
#[derive(Drop)]
pub(crate) struct Telling {
    pub(crate) rows: Vec<List<Label>>,
    pub(crate) readings: Readings,
    pub(crate) following: Following,
    /// The ways that somebody has, as far as the report was followed.
    pub(crate) present: Present,
    /// The place of a run, and whether it goes through each row.
    pub(crate) run: Option<usize>,
    pub(crate) through: Vec<bool>,
}

/// The facts of the row for idle ticks.
fn idle_facts(is_idle: bool) -> Facts
    ensures { result ≡ record { here = false; ready = false; served = is_idle } }
{
    Facts {
        here: false,
        ready: false,
        served: is_idle,
    }
}

/// Whether this is the place of a run.
fn is_run(run: Option<usize>, at: usize) -> bool
    ensures { result ≡ true → run ≡ Some at }
{
    match run {
        Some(run) => run == at,
        None => false,
    }
}

impl Telling {
    /// Of these rows; nothing was asked for yet.
    ///
    /// # Errors
    /// Returns `AllocError` for want of memory.
    pub(crate) fn of(
        alloc: Global,
        report: &Report,
        rows: Vec<List<Label>>,
    ) -> Result<Telling, AllocError>
        requires { IsWellFormed report.now }
        ensures { IfOk result (IsTelling report.now rows.items) }
    {
        let readings = Readings::of(alloc, report)?;
        let present = Present::of(alloc, &rows, Vec::new(alloc))?;
        Ok(Telling {
            rows,
            readings,
            following: Following::new(alloc),
            present,
            run: None,
            through: Vec::new(alloc),
        })
    }

    /// Finds the ways that somebody has anew.
    fn renew(&mut self, alloc: Global) -> Result<(), AllocError>
        ensures { OnOk result (IsRenewed self.old self.new) }
    {
        let ways = ways_of(alloc, &self.following.hierarchy.places)?;
        self.present = Present::of(alloc, &self.rows, ways)?;
        self.run = None;
        Ok(())
    }

    /// Follows the report to a tick.
    fn go_to(&mut self, alloc: Global, report: &Report, tick: u32) -> Result<(), AllocError>
        requires formed { IsWellFormed report.now }
        requires telling { IsTelling report.now self.old.rows.items self.old }
        ensures { OnOk result
            (IsTellingOf report.now self.old.rows.items (ways_at (content_of report.now) tick) self.new) }
    {
        if self.following.go_to(alloc, report, tick)? {
            return self.renew(alloc);
        }
        Ok(())
    }

    /// Whether the way at a place ends in a ready thread in a tick.
    fn asks(
        &mut self,
        alloc: Global,
        report: &Report,
        place: usize,
        tick: u32,
    ) -> Result<bool, AllocError>
        requires formed { IsWellFormed report.now }
        requires telling { IsTelling report.now self.old.rows.items self.old }
        requires early { tick < report.now.horizon }
        requires place { place < length self.old.present.ways.items }
        ensures telling { OnOk result
            (IsTellingOf report.now self.old.rows.items self.old.present.ways.items self.new) }
        ensures asks { IfOk result (λ asks. asks
            ≡ told.way_asks (content_of report.now) tick (get_or self.old.present.ways.items place [])) }
    {
        let known = self.present.asking[place];
        if known.since <= tick && tick < known.until {
            return Ok(known.asks);
        }
        let way = self.present.ways[place].items();
        let asking = asking_of(alloc, report, &mut self.readings, way, tick)?;
        self.present.asking[place] = asking;
        Ok(asking.asks)
    }

    /// Whether each way ends in a ready thread in a tick.
    fn all_asking(
        &mut self,
        alloc: Global,
        report: &Report,
        tick: u32,
    ) -> Result<Vec<bool>, AllocError>
        requires formed { IsWellFormed report.now }
        requires telling { IsTelling report.now self.old.rows.items self.old }
        requires early { tick < report.now.horizon }
        ensures telling { OnOk result
            (IsTellingOf report.now self.old.rows.items self.old.present.ways.items self.new) }
        ensures asking { IfOk result (λ asking. asking.items
            ≡ map (told.way_asks (content_of report.now) tick) self.old.present.ways.items) }
    {
        let mut asking = Vec::with_capacity(alloc, self.present.ways.len())?;
        for place in 0..self.present.ways.len() {
            asking.push(self.asks(alloc, report, place, tick)?)?;
        }
        Ok(asking)
    }

    /// Finds through which rows the run at a place goes, which has a path.
    fn pass(
        &mut self,
        alloc: Global,
        report: &Report,
        at: usize,
        path: &Option<Path>,
    ) -> Result<(), AllocError>
        requires telling { IsTelling report.now self.old.rows.items self.old }
        requires path { path.now ≡ path_in report.now.runs at }
        requires short { HasShort path.now }
        requires named { AreNamed (option_map (path_names report.now.names) path.now) }
        ensures telling { OnOk result (IsTelling report.now self.old.rows.items self.new) }
        ensures present { OnOk result (self.new.present ≡ self.old.present) }
        ensures through { OnOk result (self.new.through.items
            ≡ through_of report.now self.old.rows.items self.old.present.ways.items at) }
    {
        if is_run(self.run, at) {
            return Ok(());
        }
        let given = given(alloc, report, path, &self.present.ways)?;
        self.through = all_through(alloc, &self.rows, given)?;
        self.run = Some(at);
        Ok(())
    }

    /// Finds through which rows a tick goes, and tells whether it is idle.
    fn turn_to(&mut self, alloc: Global, report: &Report, tick: u32) -> Result<bool, AllocError>
        requires formed { IsWellFormed report.now }
        requires telling { IsTelling report.now self.old.rows.items self.old }
        requires early { tick < report.now.horizon }
        requires ways { self.old.present.ways.items ≡ ways_at (content_of report.now) tick }
        ensures telling { OnOk result (IsTelling report.now self.old.rows.items self.new) }
        ensures present { OnOk result (self.new.present ≡ self.old.present) }
        ensures through { OnOk result (self.new.through.items
            ≡ map (λ row. told.is_through row (told.given_at (content_of report.now) tick)) self.old.rows.items) }
        ensures idle { IfOk result (λ idle. idle ≡ is_none (path_at (content_of report.now).stretches tick)) }
    {
        let at = self.readings.run(report, tick);
        let path = path_of(report, at, tick);
        self.pass(alloc, report, at, &path)?;
        Ok(path.is_none())
    }

    /// The facts of each row in a tick, and those of the row for idle ticks.
    fn facts(&mut self, alloc: Global, report: &Report, tick: u32) -> Result<Vec<Facts>, AllocError>
        requires formed { IsWellFormed report.now }
        requires telling { IsTelling report.now self.old.rows.items self.old }
        requires early { tick < report.now.horizon }
        ensures telling { OnOk result (IsTelling report.now self.old.rows.items self.new) }
        ensures facts { IfOk result (λ facts.
            facts.items ≡ told.all_facts (content_of report.now) self.old.rows.items tick) }
    {
        self.go_to(alloc, report, tick)?;
        let asking = self.all_asking(alloc, report, tick)?;
        let is_idle = self.turn_to(alloc, report, tick)?;
        let mut facts = all_facts(alloc, &self.present, &asking, &self.through)?;
        facts.push(idle_facts(is_idle))?;
        Ok(facts)
    }

    /// At how many of so many ticks from one on each fact holds of each row, and of the row for idle ticks.
    ///
    /// # Errors
    /// Returns `AllocError` for want of memory.
    pub(crate) fn tallies(
        &mut self,
        alloc: Global,
        report: &Report,
        from: u32,
        ticks: u32,
    ) -> Result<Vec<Tally>, AllocError>
        requires formed { IsWellFormed report.now }
        requires telling { IsTelling report.now self.old.rows.items self.old }
        requires early { from + ticks ≤ report.now.horizon }
        ensures telling { OnOk result (IsTelling report.now self.old.rows.items self.new) }
        ensures tallies { IfOk result (λ found.
            found.items ≡ tallies (content_of report.now) self.old.rows.items from ticks) }
    {
        let mut tallies = no_tallies(alloc, &self.rows)?;
        for tick in from..from + ticks {
            let facts = self.facts(alloc, report, tick)?;
            add_facts(&mut tallies, &facts);
        }
        Ok(tallies)
    }
}
