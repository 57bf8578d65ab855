// The ticks of one thread in a report: in which it is served, and in which it is ready.
ghost use Rattle.hls_chron.specs.Ranges.{longest_horizon};
ghost use Rattle.std.specs.Prelude.{◌≡◌, ◌+◌, ◌<◌, ◌≤◌, ℕ, Bool, true, IfOk, OnOk};
ghost use Rattle.hls_audit_spans.specs.Spans.{Tell};
ghost use Rattle.hls_report_text.specs.Content.{content_of};
ghost use Rattle.hls_report_text.specs.WellFormed.{IsWellFormed};
ghost use Rattle.hls_audit_threads.specs.Inside.Lookups.{IsLookup};
ghost use Rattle.hls_audit_threads.specs.Inside.Ticks.{TellsReady, TellsServed};

use crate::lines::{Readiness, fill, readiness_of};
use crate::lookup::Lookup;
use hls_audit_spans::Spans;
use hls_chron::Name;
use hls_report_text::{Report, Run};
use std::alloc::{AllocError, Global};

/// Adds the ticks of a run, behind all others.
fn add_run(served: &mut Spans, run: &Run) -> Result<(), AllocError>
    requires order { run.now.from ≤ run.now.to }
    requires few { run.now.to < longest_horizon }
    ensures { OnOk result ((f : ℕ → Bool) → Tell f served.old.spans.items run.now.from →
        ((t : ℕ) → run.now.from ≤ t → t < run.now.to + 1 → f t ≡ true) →
        Tell f served.new.spans.items (run.now.to + 1)) }
{
    served.add(run.from, run.to + 1)
}

/// In which ticks the thread of a name is served, by the runs.
pub(crate) fn served_ticks(
    alloc: Global,
    report: &Report,
    lookup: &Lookup,
    name: &Name,
) -> Result<Spans, AllocError>
    requires formed { IsWellFormed report.now }
    requires lookup { IsLookup report.now lookup.now }
    ensures { IfOk result (λ served. TellsServed (content_of report.now) name.now served.spans.items) }
{
    let runs = report.runs.items();
    let mut served = Spans::new(alloc);
    let mut next = lookup.runs.first(name);
    while let Some(at) = next {
        add_run(&mut served, &runs[at])?;
        next = lookup.runs.next(at);
    }
    Ok(served)
}

/// In which ticks it is ready, by the commands and the ticks in which it is served.
pub(crate) fn ready_ticks(
    alloc: Global,
    report: &Report,
    lookup: &Lookup,
    name: &Name,
    served: &Spans,
) -> Result<Spans, AllocError>
    requires formed { IsWellFormed report.now }
    requires lookup { IsLookup report.now lookup.now }
    requires served { TellsServed (content_of report.now) name.now served.now.spans.items }
    ensures { IfOk result (λ ready. TellsReady (content_of report.now) name.now ready.spans.items) }
{
    let answered = report.answered.items();
    let mut ready = Spans::new(alloc);
    let mut readiness = Readiness::Asleep;
    let mut since = 0;
    let mut next = lookup.commands.first(name);
    while let Some(at) = next {
        let a = &answered[at];
        fill(&mut ready, readiness, served, since, a.tick)?;
        readiness = readiness_of(&a.command);
        since = a.tick;
        next = lookup.commands.next(at);
    }
    fill(&mut ready, readiness, served, since, report.horizon)?;
    Ok(ready)
}
