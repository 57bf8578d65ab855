// The picture of a report.
ghost use Rattle.std.specs.Prelude.{◌≡◌, ◌<◌, IfOk, length, map};
ghost use Rattle.hls_report_text.specs.Content.{content_of};
ghost use Rattle.hls_report_text.specs.WellFormed.{IsWellFormed};
ghost use Rattle.hls_top.specs.Summaries as summaries;
ghost use Rattle.hls_view_lanes.specs.Lanes.{AreLanes, all_counts};
ghost use Rattle.hls_view_drawing.specs.Drawing as told;

use crate::commands::commands_shown;
use crate::names::{schedulers_among, threads_among};
use crate::rows::all_rows;
use crate::strips::what_ran;
use hls_audit::Outcome;
use hls_chron::List;
use hls_report_text::Report;
use hls_top::put_verdict;
use hls_view_lanes::{Counts, Lanes};
use hls_view_picture_rows::{Picture, ShownMove};
use hls_view_scale::Scale;
use hls_view_shifts::{Shift, shifts_of};
use hls_view_signs::signs_of;
use hls_view_tale::Label;
use hls_view_tights::tights_of;
use std::alloc::{AllocError, Global};

fn verdict_of(alloc: Global, audit: Outcome) -> Result<Vec<u8>, AllocError>
    ensures { IfOk result (λ text. text.items ≡ summaries.verdict audit) }
{
    let mut text = Vec::new(alloc);
    put_verdict(&mut text, audit)?;
    Ok(text)
}

fn broken_at(audit: Outcome) -> Option<u32>
    ensures { result ≡ told.broken_at audit }
{
    match audit {
        Outcome::Kept => None,
        Outcome::Broken { tick, .. } => Some(tick),
    }
}

fn move_of(shift: &Shift) -> ShownMove
    ensures { result ≡ told.move_of shift.now }
{
    ShownMove {
        tick: shift.tick,
        from: shift.from,
        to: shift.to,
    }
}

fn moves_of(alloc: Global, shifts: &[Shift]) -> Result<Vec<ShownMove>, AllocError>
    ensures { IfOk result (λ moves. moves.items ≡ map told.move_of shifts.now) }
{
    let mut moves = Vec::new(alloc);
    for shift in shifts {
        moves.push(move_of(shift))?;
    }
    Ok(moves)
}

/// Rows, and their counts.
#[derive(Clone, Copy)]
struct Found<'a> {
    rows: &'a [List<Label>],
    counts: &'a [Counts],
}

#[tactic(auto, using(crate::proofs::Drawings::drawn))]
fn drawing_over(
    alloc: Global,
    report: &Report,
    audit: Outcome,
    scale: &Scale,
    found: &Found<'_>,
) -> Result<Picture, AllocError>
    requires formed { IsWellFormed report.now }
    requires within { scale.now.to < report.now.horizon }
    requires rows { found.now.rows.now ≡ told.ways_shown (content_of report.now) scale.now }
    requires counts { found.now.counts.now ≡ all_counts (content_of report.now) scale.now found.now.rows.now }
    requires few { length found.now.rows.now < 4096 }
    ensures { IfOk result (told.IsDrawing (content_of report.now) audit scale.now) }
{
    let signs = signs_of(alloc, report, scale, found.rows)?;
    let tights = tights_of(alloc, report, scale, found.rows)?;
    let shifts = shifts_of(alloc, report, scale, found.rows)?;
    Ok(Picture {
        scale: *scale,
        horizon: report.horizon,
        verdict: verdict_of(alloc, audit)?,
        broken_at: broken_at(audit),
        threads: threads_among(alloc, found.rows)?,
        schedulers: schedulers_among(alloc, found.rows)?,
        rows: all_rows(alloc, scale, found.rows, found.counts, &signs, &tights)?,
        commands: commands_shown(alloc, report.version, report.answered.items(), scale)?,
        moves: moves_of(alloc, &shifts)?,
        strips: what_ran(alloc, report, scale, found.rows, found.counts)?,
    })
}

/// The picture of the ticks of a scale, whose rows and counts were found.
///
/// # Errors
/// Returns `AllocError` for want of memory.
pub fn drawing_of(
    alloc: Global,
    report: &Report,
    audit: Outcome,
    scale: &Scale,
    lanes: &Lanes,
) -> Result<Picture, AllocError>
    requires formed { IsWellFormed report.now }
    requires within { scale.now.to < report.now.horizon }
    requires lanes { AreLanes (content_of report.now) scale.now lanes.now }
    requires few { length lanes.now.rows.items < 4096 }
    ensures { IfOk result (told.IsDrawing (content_of report.now) audit scale.now) }
{
    let found = Found {
        rows: &lanes.rows,
        counts: &lanes.counts,
    };
    drawing_over(alloc, report, audit, scale, &found)
}
