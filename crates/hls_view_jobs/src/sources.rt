// What is looked up of a report, once for all its threads.
ghost use Rattle.std.specs.Prelude.{◌≡◌, IfOk, map, filter};
ghost use Rattle.hls_report_text.specs.Content.{content_of};
ghost use Rattle.hls_report_text.specs.WellFormed.{IsWellFormed};
ghost use Rattle.hls_legal.specs.Stays as told;
ghost use Rattle.hls_audit_stays.specs.Found.{stay_by, lasts};
ghost use Rattle.hls_view_jobs.specs.Inside.Sound.{AreStaysOf};
ghost use Rattle.hls_view_jobs.specs.Inside.Sources.{AreSources};

use hls_audit_stays::{FoundStay, stays_of};
use hls_audit_threads::{KnownThreads, Lookup};
use hls_chron::Name;
use hls_legal::Stay;
use hls_report_text::Report;
use std::alloc::{AllocError, Global};

/// Who is served in each run, the stays of all threads, and the ticks of those that were asked for.
#[derive(Drop)]
pub(crate) struct Sources {
    pub(crate) lookup: Lookup,
    pub(crate) stays: Vec<FoundStay>,
    pub(crate) known: KnownThreads,
}

impl Sources {
    /// Those of a report.
    ///
    /// # Errors
    /// Returns `AllocError` for want of memory.
    pub(crate) fn of(alloc: Global, report: &Report) -> Result<Sources, AllocError>
        requires { IsWellFormed report.now }
        ensures { IfOk result (AreSources report.now) }
    {
        let stays = stays_of(alloc, report.answered.items())?;
        let lookup = Lookup::of(alloc, report)?;
        Ok(Sources {
            lookup,
            stays,
            known: KnownThreads::new(alloc),
        })
    }
}

/// The stays of the thread of a name that have a tick.
///
/// # Errors
/// Returns `AllocError` for want of memory.
pub(crate) fn stays_named(
    alloc: Global,
    report: &Report,
    stays: &[FoundStay],
    name: &Name,
) -> Result<Vec<Stay>, AllocError>
    requires formed { IsWellFormed report.now }
    requires stays { map (stay_by report.now.answered) stays.now ≡ filter lasts (told.stays report.now.answered) }
    ensures { IfOk result (λ all. AreStaysOf (content_of report.now) name.now all.items) }
{
    let mut named = Vec::new(alloc);
    for found in stays {
        if found.name == *name {
            named.push(found.stay(report.answered.items()))?;
        }
    }
    Ok(named)
}
