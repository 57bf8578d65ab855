// Threads that run and are not ready.
ghost use Rattle.std.specs.Prelude.{◌≡◌, IfOk, OnOk};
ghost use Rattle.hls_report_text.specs.Content.{content_of};
ghost use Rattle.hls_report_text.specs.WellFormed.{IsWellFormed};
ghost use Rattle.hls_audit_clauses.specs.Clauses.{RunsUnready};
ghost use Rattle.hls_audit_watch.specs.First.{FirstAt};
ghost use Rattle.hls_audit_threads.specs.Inside.KnownThreads.{AreKnown};
ghost use Rattle.hls_audit_threads.specs.Inside.Lookups.{IsLookup};
ghost use Rattle.hls_audit_threads.specs.Inside.Unready.{IsUnready};

use crate::known_threads::KnownThreads;
use crate::lookup::Lookup;
use crate::stays::sooner_of;
use hls_chron::Name;
use hls_report_text::Report;
use std::alloc::{AllocError, Global};

/// The first tick in which the thread of a name is served and not ready.
fn first_unready_of(
    alloc: Global,
    report: &Report,
    lookup: &Lookup,
    known: &mut KnownThreads,
    name: &Name,
) -> Result<Option<u32>, AllocError>
    requires formed { IsWellFormed report.now }
    requires lookup { IsLookup report.now lookup.now }
    requires known { AreKnown (content_of report.now) known.old }
    ensures known { OnOk result (AreKnown (content_of report.now) known.new) }
    ensures first { IfOk result (FirstAt (λ t. IsUnready (content_of report.now) t name.now)) }
{
    let place = known.place_of(alloc, report, lookup, name)?;
    let ticks = &known.ticks[place];
    Ok(ticks.served.first_beyond(&ticks.ready))
}

/// The first tick at which the third clause fails, by the names of a report: a path ends in one of them.
fn first_unready_among(
    alloc: Global,
    report: &Report,
    lookup: &Lookup,
    known: &mut KnownThreads,
    names: &[Name],
) -> Result<Option<u32>, AllocError>
    requires formed { IsWellFormed report.now }
    requires lookup { IsLookup report.now lookup.now }
    requires known { AreKnown (content_of report.now) known.old }
    requires names { names.now ≡ report.now.names }
    ensures known { OnOk result (AreKnown (content_of report.now) known.new) }
    ensures first { IfOk result (FirstAt (RunsUnready (content_of report.now))) }
{
    let mut first = None;
    for name in names {
        let unready = first_unready_of(alloc, report, lookup, known, name)?;
        first = sooner_of(first, unready);
    }
    Ok(first)
}

/// The first tick at which the third clause fails.
pub(crate) fn first_unready(
    alloc: Global,
    report: &Report,
    lookup: &Lookup,
    known: &mut KnownThreads,
) -> Result<Option<u32>, AllocError>
    requires formed { IsWellFormed report.now }
    requires lookup { IsLookup report.now lookup.now }
    requires known { AreKnown (content_of report.now) known.old }
    ensures known { OnOk result (AreKnown (content_of report.now) known.new) }
    ensures first { IfOk result (FirstAt (RunsUnready (content_of report.now))) }
{
    first_unready_among(alloc, report, lookup, known, report.names.items())
}
