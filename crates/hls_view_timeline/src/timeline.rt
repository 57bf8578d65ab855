// The trace of a report.
ghost use Rattle.std.specs.Prelude.{◌≡◌, ◌++◌, ◌<◌, IfOk, OnOk, length};
ghost use Rattle.hls_report_text.specs.Content.{content_of};
ghost use Rattle.hls_report_text.specs.WellFormed.{IsWellFormed};
ghost use Rattle.hls_top.specs.Summaries as summaries;
ghost use Rattle.hls_view_timeline.specs.Timeline as told;

use crate::accounts::accounts;
use crate::naming::put_names;
use crate::numbers::{commands_track, schedule_track};
use crate::staying::{Shown, put_stays};
use hls_audit::Outcome;
use hls_chron::List;
use hls_report_text::Report;
use hls_top::put_verdict;
use hls_view_tale::Label;
use hls_view_trace::{Event, Trace};
use hls_view_tracks::{command_events, schedule_events};
use std::alloc::{AllocError, Global};

fn verdict_of(alloc: Global, audit: Outcome) -> Result<List<u8>, AllocError>
    ensures { IfOk result (λ text. text ≡ summaries.verdict audit) }
{
    let mut text = Vec::new(alloc);
    put_verdict(&mut text, audit)?;
    Ok(List::of(text))
}

fn put_events(events: &mut Vec<Event>, more: Vec<Event>) -> Result<(), AllocError>
    ensures { OnOk result (events.new.items ≡ events.old.items ++ more.items) }
{
    for event in more {
        events.push(event)?;
    }
    Ok(())
}

fn events_over(alloc: Global, shown: &Shown) -> Result<Vec<Event>, AllocError>
    requires formed { IsWellFormed shown.now.report.now }
    requires rows { shown.now.rows.now ≡ told.rows_shown (content_of shown.now.report.now) }
    requires few { length shown.now.rows.now < 4096 }
    ensures { IfOk result (λ events. events.items
        ≡ told.events_over (content_of shown.now.report.now) shown.now.rows.now) }
{
    let accounts = accounts(alloc, shown.report)?;
    let mut events = Vec::new(alloc);
    put_names(alloc, &mut events, shown.rows)?;
    let schedule = schedule_events(alloc, shown.report, schedule_track(shown.rows))?;
    put_events(&mut events, schedule)?;
    let commands = command_events(alloc, shown.report, commands_track(shown.rows))?;
    put_events(&mut events, commands)?;
    put_stays(alloc, &mut events, shown, &accounts)?;
    Ok(events)
}

/// The trace of a report whose audit comes to this, with so many microseconds to a tick, where the rows of all its
/// ticks were found.
///
/// # Errors
/// Returns `AllocError` where there is no memory for what is kept beside the report.
pub fn trace_of(
    alloc: Global,
    report: &Report,
    audit: Outcome,
    tick: u32,
    rows: &[List<Label>],
) -> Result<Trace, AllocError>
    requires formed { IsWellFormed report.now }
    requires rows { rows.now ≡ told.rows_shown (content_of report.now) }
    requires few { length rows.now < 4096 }
    ensures { IfOk result (told.IsTrace (content_of report.now) audit tick) }
{
    let shown = Shown { report, rows };
    let events = events_over(alloc, &shown)?;
    Ok(Trace {
        horizon: report.horizon,
        tick,
        verdict: verdict_of(alloc, audit)?,
        events: List::of(events),
    })
}
