// What is found of a report as it is asked for: in which ticks threads are ready, and the run of each tick.
ghost use Rattle.std.specs.Prelude.{◌≡◌, ◌+◌, ◌<◌, ◌≤◌, IfOk, OnOk};
ghost use Rattle.hls_report_text.specs.Content.{content_of};
ghost use Rattle.hls_report_text.specs.WellFormed.{IsWellFormed};
ghost use Rattle.hls_audit.specs.Inside.Leading.{IsReached};
ghost use Rattle.hls_view_lanes.specs.Inside.Present.{IsReadyAs};
ghost use Rattle.hls_view_lanes.specs.Inside.Readings.{AreReadings};

use crate::asking::Asking;
use crate::paths::runs_of;
use hls_audit_threads::{KnownThreads, Lookup};
use hls_chron::Name;
use hls_report_text::Report;
use hls_view_margins::{is_in, steady_until};
use std::alloc::{AllocError, Global};

#[derive(Drop)]
pub(crate) struct Readings {
    pub(crate) lookup: Lookup,
    pub(crate) known: KnownThreads,
    pub(crate) runs: Vec<usize>,
}

impl Readings {
    /// Nothing was asked for yet.
    ///
    /// # Errors
    /// Returns `AllocError` for want of memory.
    pub(crate) fn of(alloc: Global, report: &Report) -> Result<Readings, AllocError>
        requires { IsWellFormed report.now }
        ensures { IfOk result (AreReadings report.now) }
    {
        Ok(Readings {
            lookup: Lookup::of(alloc, report)?,
            known: KnownThreads::new(alloc),
            runs: runs_of(alloc, report)?,
        })
    }

    /// Whether a thread is ready in a tick, and for how long it goes on so.
    ///
    /// # Errors
    /// Returns `AllocError` for want of memory.
    pub(crate) fn asking(
        &mut self,
        alloc: Global,
        report: &Report,
        name: &Name,
        tick: u32,
    ) -> Result<Asking, AllocError>
        requires formed { IsWellFormed report.now }
        requires readings { AreReadings report.now self.old }
        requires early { tick < report.now.horizon }
        ensures readings { OnOk result (AreReadings report.now self.new) }
        ensures asks { IfOk result (IsReadyAs (content_of report.now) name.now) }
        ensures since { IfOk result (λ a. a.since ≤ tick) }
        ensures until { IfOk result (λ a. tick < a.until) }
    {
        let place = self.known.place_of(alloc, report, &self.lookup, name)?;
        let ready = &self.known.ticks[place].ready;
        Ok(Asking {
            asks: is_in(ready, tick),
            since: tick,
            until: steady_until(ready, tick, report.horizon),
        })
    }

    /// The place of the run of a tick.
    pub(crate) fn run(&self, report: &Report, tick: u32) -> usize
        requires readings { AreReadings report.now self.now }
        requires early { tick < report.now.horizon }
        ensures { IsReached report.now.runs (tick + 1) result }
    {
        self.runs[tick as usize]
    }
}
