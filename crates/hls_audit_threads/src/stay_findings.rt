// What becomes of all stays, one after another.
ghost use Rattle.std.specs.Prelude.{◌≡◌, ◌≤◌, IfOk, OnOk, None, Some, map, filter};
ghost use Rattle.hls_guarantee.specs.Limits.{IsValid};
ghost use Rattle.hls_report_text.specs.Content.{content_of};
ghost use Rattle.hls_report_text.specs.WellFormed.{IsWellFormed};
ghost use Rattle.hls_legal.specs.Accounts as ends;
ghost use Rattle.hls_legal.specs.Stays as told;
ghost use Rattle.hls_audit_stays.specs.Found.{stay_by, lasts};
ghost use Rattle.hls_audit_clauses.specs.Clauses.{IsStarved, IsOverCap};
ghost use Rattle.hls_audit_watch.specs.First.{FirstAt};
ghost use Rattle.hls_audit_threads.specs.Inside.Lookups.{IsLookup};
ghost use Rattle.hls_audit_threads.specs.Inside.KnownThreads.{AreKnown};
ghost use Rattle.hls_audit_threads.specs.Inside.Ticks.{TellsReady, TellsServed};
ghost use Rattle.hls_audit_threads.specs.Inside.Meeting.{AreMet};
ghost use Rattle.hls_audit_threads.specs.Inside.StayFindings.{Adds};

use crate::accounts::account_of;
use crate::known_threads::{KnownThreads, ThreadTicks};
use crate::lookup::Lookup;
use crate::meeting::meet;
use crate::stays::{first_excess, first_lack, sooner_of};
use hls_audit_stays::FoundStay;
use hls_legal::Stay;
use hls_report_text::Report;
use std::alloc::{AllocError, Global};

/// Of stays: the first tick at which one starves, the first at which one is over its cap, and how many accounts of the
/// report are those of the stays that have a tick, in their order; `None` where one is not.
#[derive(Drop)]
pub(crate) struct StayFindings {
    pub(crate) starved: Option<u32>,
    pub(crate) over_cap: Option<u32>,
    pub(crate) met: Option<usize>,
}

impl StayFindings {
    /// Nothing is found of any stay yet.
    fn new() -> StayFindings
        ensures starved { result.starved ≡ None }
        ensures over_cap { result.over_cap ≡ None }
        ensures met { result.met ≡ Some 0 }
    {
        StayFindings {
            starved: None,
            over_cap: None,
            met: Some(0),
        }
    }

    /// Takes in what becomes of the stay that comes next.
    fn visit(
        &mut self,
        alloc: Global,
        report: &Report,
        stay: &Stay,
        ticks: &ThreadTicks,
    ) -> Result<(), AllocError>
        requires formed { IsWellFormed report.now }
        requires kept { IsValid stay.now.kept }
        requires ends { ends.end_of (content_of report.now) stay.now ≤ report.now.horizon }
        requires ready { TellsReady (content_of report.now) stay.now.name ticks.now.ready.spans.items }
        requires served { TellsServed (content_of report.now) stay.now.name ticks.now.served.spans.items }
        ensures { OnOk result (Adds (content_of report.now) stay.now self.old self.new) }
    {
        let lack = first_lack(alloc, report, stay, &ticks.ready, &ticks.served)?;
        let excess = first_excess(alloc, report, stay, &ticks.served)?;
        self.starved = sooner_of(self.starved, lack);
        self.over_cap = sooner_of(self.over_cap, excess);
        let found = account_of(report, stay, &ticks.ready, &ticks.served);
        self.met = meet(report.accounts.items(), self.met, found);
        Ok(())
    }

    /// What becomes of all stays.
    ///
    /// # Errors
    /// Returns `AllocError` for want of memory.
    pub(crate) fn of(
        alloc: Global,
        report: &Report,
        lookup: &Lookup,
        known: &mut KnownThreads,
        stays: &[FoundStay],
    ) -> Result<StayFindings, AllocError>
        requires formed { IsWellFormed report.now }
        requires lookup { IsLookup report.now lookup.now }
        requires known { AreKnown (content_of report.now) known.old }
        requires stays { map (stay_by report.now.answered) stays.now ≡ filter lasts (told.stays report.now.answered) }
        ensures starved { IfOk result (λ f. FirstAt (IsStarved (content_of report.now)) f.starved) }
        ensures over_cap { IfOk result (λ f. FirstAt (IsOverCap (content_of report.now)) f.over_cap) }
        ensures accounts { IfOk result (λ f.
            AreMet report.now.accounts (ends.accounts_of (content_of report.now)) f.met) }
    {
        let mut findings = StayFindings::new();
        for found in stays {
            let stay = found.stay(report.answered.items());
            let place = known.place_of(alloc, report, lookup, &stay.name)?;
            findings.visit(alloc, report, &stay, &known.ticks[place])?;
        }
        Ok(findings)
    }
}
