// The margins of all stays, one after another.
ghost use Rattle.std.specs.Prelude.{◌≡◌, ◌≤◌, ◌++◌, IfOk, OnOk, map, filter};
ghost use Rattle.hls_guarantee.specs.Limits.{IsValid};
ghost use Rattle.hls_report_text.specs.Content.{Content, content_of};
ghost use Rattle.hls_report_text.specs.WellFormed.{IsWellFormed};
ghost use Rattle.hls_legal.specs.Accounts.{end_of};
ghost use Rattle.hls_legal.specs.Stays as told;
ghost use Rattle.hls_audit_stays.specs.Found.{stay_by, lasts};
ghost use Rattle.hls_audit_threads.specs.Inside.Lookups.{IsLookup};
ghost use Rattle.hls_audit_threads.specs.Inside.Ticks.{TellsReady, TellsServed};
ghost use Rattle.hls_view_margins.specs.Margins.{IsMargin, AreMargins, lasting};
ghost use Rattle.hls_view_margins.specs.Inside.Listed.{listed, IsWindowOf, IsMarginOf};

use crate::cuts::Window;
use crate::margin::Margin;
use crate::rooms::room_of;
use crate::rows::longest_row;
use crate::spares::spare_of;
use hls_audit_stays::{FoundStay, stays_of};
use hls_audit_threads::{KnownThreads, Lookup, ThreadTicks};
use hls_legal::Stay;
use hls_report_text::Report;
use std::alloc::{AllocError, Global};

/// The ticks of a stay, if it has one.
#[tactic(auto, using(hls_report_text::proofs::LineTexts::horizon_fits))]
fn window_of(report: &Report, stay: &Stay) -> Option<Window>
    requires formed { IsWellFormed report.now }
    requires ends { end_of (content_of report.now) stay.now ≤ report.now.horizon }
    ensures { IsWindowOf (content_of report.now) stay.now result }
{
    let until = match stay.until {
        Some(until) => until,
        None => report.horizon,
    };
    if stay.since < until {
        Some(Window {
            lo: stay.since,
            hi: until,
        })
    } else {
        None
    }
}

/// The margin of a stay that has these ticks.
fn margin_in(stay: &Stay, window: &Window, ticks: &ThreadTicks) -> Margin
    requires { IsValid stay.now.kept }
    ensures { (c : Content) → TellsReady c stay.now.name ticks.now.ready.spans.items →
        TellsServed c stay.now.name ticks.now.served.spans.items → window.now.lo ≡ stay.now.since →
        window.now.hi ≡ end_of c stay.now → window.now.hi ≤ c.horizon → IsMargin c stay.now result }
{
    let lo = window.lo;
    let hi = window.hi;
    Margin {
        name: stay.name,
        from: lo,
        to: hi - 1,
        kept: stay.kept,
        ready: ticks.ready.count(lo, hi - lo),
        served: ticks.served.count(lo, hi - lo),
        spare: spare_of(&stay.kept, &ticks.ready, &ticks.served, window),
        room: room_of(&stay.kept, &ticks.served, window),
        wait: longest_row(&ticks.ready, &ticks.served, true, lo, hi),
        window: longest_row(&ticks.ready, &ticks.served, false, lo, hi),
    }
}

/// The margin of a stay, if it has a tick.
fn margin_of(report: &Report, stay: &Stay, ticks: &ThreadTicks) -> Option<Margin>
    requires formed { IsWellFormed report.now }
    requires kept { IsValid stay.now.kept }
    requires ends { end_of (content_of report.now) stay.now ≤ report.now.horizon }
    requires ready { TellsReady (content_of report.now) stay.now.name ticks.now.ready.spans.items }
    requires served { TellsServed (content_of report.now) stay.now.name ticks.now.served.spans.items }
    ensures { IsMarginOf (content_of report.now) stay.now result }
{
    match window_of(report, stay) {
        Some(window) => Some(margin_in(stay, &window, ticks)),
        None => None,
    }
}

/// Puts a margin, if there is one, behind all others.
fn add(margins: &mut Vec<Margin>, margin: Option<Margin>) -> Result<(), AllocError>
    ensures { OnOk result (margins.new.items ≡ margins.old.items ++ listed margin) }
{
    if let Some(margin) = margin {
        margins.push(margin)?;
    }
    Ok(())
}

/// The margins of these stays.
fn margins_of(
    alloc: Global,
    report: &Report,
    lookup: &Lookup,
    stays: &[FoundStay],
) -> Result<Vec<Margin>, AllocError>
    requires formed { IsWellFormed report.now }
    requires lookup { IsLookup report.now lookup.now }
    requires stays { map (stay_by report.now.answered) stays.now ≡ filter lasts (told.stays report.now.answered) }
    ensures { IfOk result (λ all. AreMargins (content_of report.now) (lasting (content_of report.now)) all.items) }
{
    let mut known = KnownThreads::new(alloc);
    let mut margins = Vec::new(alloc);
    for found in stays {
        let stay = found.stay(report.answered.items());
        let place = known.place_of(alloc, report, lookup, &stay.name)?;
        add(&mut margins, margin_of(report, &stay, &known.ticks[place]))?;
    }
    Ok(margins)
}

/// How near each stay of a report that has a tick came to its guarantee and its cap, in the order in which they begin.
///
/// # Errors
/// Returns `AllocError` where there is no memory for what is kept beside the report.
pub fn margins(alloc: Global, report: &Report) -> Result<Vec<Margin>, AllocError>
    requires { IsWellFormed report.now }
    ensures { IfOk result (λ all. AreMargins (content_of report.now) (lasting (content_of report.now)) all.items) }
{
    let stays = stays_of(alloc, report.answered.items())?;
    let lookup = Lookup::of(alloc, report)?;
    margins_of(alloc, report, &lookup, &stays)
}
