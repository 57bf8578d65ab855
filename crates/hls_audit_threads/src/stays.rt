// What stays are guaranteed, and what they get.
ghost use Rattle.std.specs.Prelude.{◌≡◌, ◌≤◌, IfOk};
ghost use Rattle.hls_guarantee.specs.Limits.{IsValid};
ghost use Rattle.hls_report_text.specs.Content.{content_of};
ghost use Rattle.hls_report_text.specs.WellFormed.{IsWellFormed};
ghost use Rattle.hls_legal.specs.Accounts as ends;
ghost use Rattle.hls_audit_watch.specs.First.{FirstAt};
ghost use Rattle.hls_audit_threads.specs.Inside.Least as least;
ghost use Rattle.hls_audit_threads.specs.Inside.Sites.{Starves, Exceeds};
ghost use Rattle.hls_audit_threads.specs.Inside.Ticks.{TellsReady, TellsServed};

use crate::starving::{first_exceeding, first_starving};
use hls_audit_spans::Spans;
use hls_legal::Stay;
use hls_report_text::Report;
use std::alloc::{AllocError, Global};

/// The sooner of two first ticks.
pub(crate) fn sooner_of(one: Option<u32>, other: Option<u32>) -> Option<u32>
    ensures { result ≡ least.sooner_of one other }
{
    match (one, other) {
        (None, _) => other,
        (Some(_), None) => one,
        (Some(a), Some(b)) => { if b < a { Some(b) } else { Some(a) } }
    }
}

/// The tick before which a stay ends.
pub(crate) fn end_of(report: &Report, stay: &Stay) -> u32
    ensures { result ≡ ends.end_of (content_of report.now) stay.now }
{
    match stay.until {
        Some(until) => until,
        None => report.horizon,
    }
}

/// The first tick of a stay at which its thread is ready, and the longest window that ends with it lacks service.
pub(crate) fn first_lack(
    alloc: Global,
    report: &Report,
    stay: &Stay,
    ready: &Spans,
    served: &Spans,
) -> Result<Option<u32>, AllocError>
    requires formed { IsWellFormed report.now }
    requires kept { IsValid stay.now.kept }
    requires ends { ends.end_of (content_of report.now) stay.now ≤ report.now.horizon }
    requires ready { TellsReady (content_of report.now) stay.now.name ready.now.spans.items }
    requires served { TellsServed (content_of report.now) stay.now.name served.now.spans.items }
    ensures { IfOk result (FirstAt (λ t. Starves (content_of report.now) t stay.now)) }
{
    let until = end_of(report, stay);
    if until <= stay.since {
        return Ok(None);
    }
    first_starving(alloc, stay, until, ready, served)
}

/// The first tick of a stay at which its thread is served, and the ticks up to this one are over its cap.
pub(crate) fn first_excess(
    alloc: Global,
    report: &Report,
    stay: &Stay,
    served: &Spans,
) -> Result<Option<u32>, AllocError>
    requires formed { IsWellFormed report.now }
    requires kept { IsValid stay.now.kept }
    requires ends { ends.end_of (content_of report.now) stay.now ≤ report.now.horizon }
    requires served { TellsServed (content_of report.now) stay.now.name served.now.spans.items }
    ensures { IfOk result (FirstAt (λ t. Exceeds (content_of report.now) t stay.now)) }
{
    let until = end_of(report, stay);
    if until <= stay.since {
        return Ok(None);
    }
    first_exceeding(alloc, stay, until, served)
}
