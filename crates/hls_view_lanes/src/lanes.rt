// The rows of a span of ticks, and in how many ticks of each column each fact holds of them.
ghost use Rattle.std.specs.Prelude.{◌≡◌, ◌+◌, ◌-◌, ◌≤◌, ◌<◌, IfOk, OnOk, fold, map};
ghost use Rattle.std.specs.List.{range_with_len};
ghost use Rattle.hls_report_text.specs.Content.{content_of};
ghost use Rattle.hls_report_text.specs.WellFormed.{IsWellFormed};
ghost use Rattle.hls_view_scale.specs.Columns.{column_from, ticks_in};
ghost use Rattle.hls_view_tale.specs.Places.{labels_of};
ghost use Rattle.hls_view_tale.specs.Following.{IsFollowing};
ghost use Rattle.hls_view_lanes.specs.Rows.{rows_of, ways_by_stays, with_rows};
ghost use Rattle.hls_view_lanes.specs.Lanes.{AreLanes};
ghost use Rattle.hls_view_lanes.specs.Inside.Kept.{HaveRows};
ghost use Rattle.hls_view_lanes.specs.Inside.Telling.{IsTelling, tallies};

use crate::counts::{Counts, all_counts};
use crate::rows::add_rows;
use crate::tallies::Tally;
use crate::telling::Telling;
use crate::ways::ways_by_stays;
use hls_chron::List;
use hls_report_text::Report;
use hls_view_scale::Scale;
use hls_view_tale::{Following, Label};
use std::alloc::{AllocError, Global};

/// The rows of a span of ticks, and in how many ticks of each column each fact holds of them.
#[derive(Debug, Drop)]
pub struct Lanes {
    /// The way down to each, told by its labels from the top; none for the processor itself, which is the first.
    pub rows: Vec<List<Label>>,
    /// Of each row, and behind them of one row more, for idle ticks.
    pub counts: Vec<Counts>,
}

/// Follows a report to a tick, and adds the rows of its ways, unless they are those of the ticks before.
fn add_rows_at(
    alloc: Global,
    report: &Report,
    tick: u32,
    following: &mut Following,
    rows: &mut Vec<List<Label>>,
) -> Result<(), AllocError>
    requires formed { IsWellFormed report.now }
    requires following { IsFollowing (content_of report.now) following.old }
    requires have { HaveRows rows.old.items (map labels_of following.old.hierarchy.places.items) }
    ensures following { OnOk result (IsFollowing (content_of report.now) following.new) }
    ensures have { OnOk result (HaveRows rows.new.items (map labels_of following.new.hierarchy.places.items)) }
    ensures rows { OnOk result (rows.new.items
        ≡ fold with_rows rows.old.items (ways_by_stays (content_of report.now) tick)) }
{
    if !following.go_to(alloc, report, tick)? {
        return Ok(());
    }
    let ways = ways_by_stays(alloc, &following.hierarchy)?;
    add_rows(alloc, rows, &ways)
}

/// The rows of the ticks from one on and before another: the way down to each, told by its labels from the top. The
/// first is that of the processor itself, which has none.
///
/// # Errors
/// Returns `AllocError` where there is no memory for what is kept beside the report.
pub fn rows_between(
    alloc: Global,
    report: &Report,
    from: u32,
    until: u32,
) -> Result<Vec<List<Label>>, AllocError>
    requires formed { IsWellFormed report.now }
    requires order { from ≤ until }
    ensures { IfOk result (λ rows. rows.items ≡ rows_of (content_of report.now) from (until - from)) }
{
    let mut rows = vec![in alloc; List::of(Vec::new(alloc))]?;
    let mut following = Following::new(alloc);
    for tick in from..until {
        add_rows_at(alloc, report, tick, &mut following, &mut rows)?;
    }
    Ok(rows)
}

/// At how many ticks of each column each fact holds of each row, and of the row for idle ticks.
fn columns_of(
    alloc: Global,
    report: &Report,
    telling: &mut Telling,
    scale: &Scale,
) -> Result<Vec<List<Tally>>, AllocError>
    requires formed { IsWellFormed report.now }
    requires telling { IsTelling report.now telling.old.rows.items telling.old }
    requires within { scale.now.to < report.now.horizon }
    ensures columns { IfOk result (λ columns. columns.items
        ≡ map (λ k. tallies (content_of report.now) telling.old.rows.items
        (column_from scale.now k) (ticks_in scale.now k)) (range_with_len 0 scale.now.columns)) }
    ensures rows { OnOk result (telling.new.rows.items ≡ telling.old.rows.items) }
{
    let mut columns = Vec::new(alloc);
    for column in 0..scale.columns {
        let from = scale.column_from(column);
        let ticks = scale.ticks_in(column) as u32;
        let tallies = telling.tallies(alloc, report, from, ticks)?;
        columns.push(List::of(tallies))?;
    }
    Ok(columns)
}

/// The rows of the ticks that are shown, and in how many ticks of each column each fact holds of them.
///
/// # Errors
/// Returns `AllocError` where there is no memory for what is kept beside the report.
pub fn lanes_of(alloc: Global, report: &Report, scale: &Scale) -> Result<Lanes, AllocError>
    requires formed { IsWellFormed report.now }
    requires within { scale.now.to < report.now.horizon }
    ensures { IfOk result (AreLanes (content_of report.now) scale.now) }
{
    let rows = rows_between(alloc, report, scale.from, scale.to + 1)?;
    let mut telling = Telling::of(alloc, report, rows)?;
    let columns = columns_of(alloc, report, &mut telling, scale)?;
    let Telling { rows, .. } = telling;
    let counts = all_counts(alloc, &columns, rows.len() + 1)?;
    Ok(Lanes { rows, counts })
}
