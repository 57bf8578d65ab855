// What is found of a report as it is asked for: in which ticks threads are ready, and the path of each tick.
ghost use Rattle.std.specs.Prelude.{◌≡◌, ◌+◌, IfOk, OnOk, length};
ghost use Rattle.hls_report_text.specs.Content.{content_of};
ghost use Rattle.hls_report_text.specs.WellFormed.{IsWellFormed};
ghost use Rattle.hls_view_timeline.specs.Staying as told;
ghost use Rattle.hls_view_timeline.specs.Inside.Accounts.{IsWithin};
ghost use Rattle.hls_view_timeline.specs.Inside.Readings.{AreReadings};

use crate::paths::{paths_of, taken};
use hls_audit_threads::{KnownThreads, Lookup};
use hls_chron::List;
use hls_report_text::{Account, Path, Report};
use hls_view_tale::Label;
use std::alloc::{AllocError, Global};

#[derive(Drop)]
pub(crate) struct Readings {
    pub(crate) lookup: Lookup,
    pub(crate) known: KnownThreads,
    pub(crate) paths: Vec<Option<Path>>,
}

impl Readings {
    /// Nothing was asked for yet.
    ///
    /// # Errors
    /// Returns `AllocError` for want of memory.
    pub(crate) fn of(alloc: Global, report: &Report) -> Result<Readings, AllocError>
        requires { IsWellFormed report.now }
        ensures { IfOk result (AreReadings report.now) }
    {
        Ok(Readings {
            lookup: Lookup::of(alloc, report)?,
            known: KnownThreads::new(alloc),
            paths: paths_of(alloc, report)?,
        })
    }

    /// In which ticks of a stay its thread is ready.
    ///
    /// # Errors
    /// Returns `AllocError` for want of memory.
    pub(crate) fn ready_in(
        &mut self,
        alloc: Global,
        report: &Report,
        account: &Account,
    ) -> Result<Vec<bool>, AllocError>
        requires formed { IsWellFormed report.now }
        requires readings { AreReadings report.now self.old }
        requires within { IsWithin (content_of report.now) account.now }
        ensures readings { OnOk result (AreReadings report.now self.new) }
        ensures ready { IfOk result (λ ready. ready.items ≡ told.ready_in (content_of report.now) account.now) }
        ensures long { IfOk result (λ ready. account.now.from + length ready.items ≡ account.now.to + 1) }
    {
        let place = self
            .known
            .place_of(alloc, report, &self.lookup, &account.name)?;
        let ticks = &self.known.ticks[place];
        let ready = ticks.ready.list(alloc, account.from, account.to + 1)?;
        Ok(ready)
    }

    /// Which of these ways each tick of a stay takes.
    ///
    /// # Errors
    /// Returns `AllocError` for want of memory.
    pub(crate) fn taken_in(
        &self,
        alloc: Global,
        report: &Report,
        ways: &[List<Label>],
        account: &Account,
    ) -> Result<Vec<Option<usize>>, AllocError>
        requires formed { IsWellFormed report.now }
        requires readings { AreReadings report.now self.now }
        requires within { IsWithin (content_of report.now) account.now }
        ensures taken { IfOk result (λ all.
            all.items ≡ told.taken_in (content_of report.now) ways.now account.now) }
        ensures long { IfOk result (λ all. account.now.from + length all.items ≡ account.now.to + 1) }
    {
        let mut all = Vec::new(alloc);
        for tick in account.from..account.to + 1 {
            all.push(taken(report.names.items(), &self.paths[tick as usize], ways))?;
        }
        Ok(all)
    }
}
