// For how long a way ends in a ready thread, or in none.
ghost use Rattle.std.specs.Prelude.{◌≡◌, ◌<◌, ◌≤◌, IfOk, OnOk};
ghost use Rattle.hls_report_text.specs.Content.{content_of};
ghost use Rattle.hls_report_text.specs.WellFormed.{IsWellFormed};
ghost use Rattle.hls_view_lanes.specs.Inside.Present.{IsAsking};
ghost use Rattle.hls_view_lanes.specs.Inside.Readings.{AreReadings};

use crate::readings::Readings;
use hls_audit_clauses::Sort;
use hls_report_text::Report;
use hls_view_tale::Label;
use std::alloc::{AllocError, Global};

/// Whether a way ends in a ready thread, in the ticks from one on and before another.
#[derive(Clone, Copy, Debug)]
pub(crate) struct Asking {
    pub(crate) asks: bool,
    pub(crate) since: u32,
    pub(crate) until: u32,
}

/// Nothing is known.
pub(crate) const UNKNOWN: Asking = Asking {
    asks: false,
    since: 0,
    until: 0,
};

/// No thread is asked for, in no tick.
const NEVER: Asking = Asking {
    asks: false,
    since: 0,
    until: 4_294_967_295,
};

/// Whether a way ends in a ready thread in a tick, and for how long it goes on so.
///
/// # Errors
/// Returns `AllocError` for want of memory.
pub(crate) fn asking_of(
    alloc: Global,
    report: &Report,
    readings: &mut Readings,
    way: &[Label],
    tick: u32,
) -> Result<Asking, AllocError>
    requires formed { IsWellFormed report.now }
    requires readings { AreReadings report.now readings.old }
    requires early { tick < report.now.horizon }
    ensures readings { OnOk result (AreReadings report.now readings.new) }
    ensures asking { IfOk result (IsAsking (content_of report.now) way.now) }
    ensures since { IfOk result (λ a. a.since ≤ tick) }
    ensures until { IfOk result (λ a. tick < a.until) }
{
    let Some(label) = way.get(way.len().saturating_sub(1)).copied() else {
        return Ok(NEVER);
    };
    match label.sort {
        Sort::Thread => readings.asking(alloc, report, &label.name, tick),
        Sort::Scheduler { .. } => Ok(NEVER),
    }
}
