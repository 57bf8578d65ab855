// What becomes of the threads of a report.
ghost use Rattle.std.specs.Prelude.{◌≡◌, Decides, IfOk};
ghost use Rattle.hls_report_text.specs.Content.{content_of};
ghost use Rattle.hls_report_text.specs.WellFormed.{IsWellFormed};
ghost use Rattle.hls_legal.specs.Accounts as told;
ghost use Rattle.hls_audit_clauses.specs.Clauses.{RunsUnready, IsStarved, IsOverCap};
ghost use Rattle.hls_audit_watch.specs.First.{FirstAt};

use crate::known_threads::KnownThreads;
use crate::lookup::Lookup;
use crate::meeting::are_all_met;
use crate::paths::first_unready;
use crate::stay_findings::StayFindings;
use hls_audit_stays::stays_of;
use hls_report_text::Report;
use std::alloc::{AllocError, Global};

/// What the commands and the schedule of a report show of its threads.
#[derive(Drop)]
pub struct Findings {
    /// The first tick in which a thread runs and is not ready.
    pub unready: Option<u32>,
    /// The first tick in which a thread is ready and lacks what its stay is guaranteed.
    pub starved: Option<u32>,
    /// The first tick in which a thread runs and exceeds the cap of its stay.
    pub over_cap: Option<u32>,
    /// Whether the accounts of the report are those of the stays that have a tick.
    pub is_counted: bool,
}

impl Findings {
    /// What a report shows.
    ///
    /// # Errors
    /// Returns `AllocError` where there is no memory for what is kept beside the report.
    pub fn of(alloc: Global, report: &Report) -> Result<Findings, AllocError>
        requires { IsWellFormed report.now }
        ensures unready { IfOk result (λ f. FirstAt (RunsUnready (content_of report.now)) f.unready) }
        ensures starved { IfOk result (λ f. FirstAt (IsStarved (content_of report.now)) f.starved) }
        ensures over_cap { IfOk result (λ f. FirstAt (IsOverCap (content_of report.now)) f.over_cap) }
        ensures counted { IfOk result (λ f.
            Decides f.is_counted (report.now.accounts ≡ told.accounts_of (content_of report.now))) }
    {
        let stays = stays_of(alloc, report.answered.items())?;
        let lookup = Lookup::of(alloc, report)?;
        let mut known = KnownThreads::new(alloc);
        let unready = first_unready(alloc, report, &lookup, &mut known)?;
        let of_stays = StayFindings::of(alloc, report, &lookup, &mut known, &stays)?;
        Ok(Findings {
            unready,
            starved: of_stays.starved,
            over_cap: of_stays.over_cap,
            is_counted: are_all_met(report.accounts.items(), of_stays.met),
        })
    }
}
