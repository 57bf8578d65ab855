// Moves from row to row.
ghost use Rattle.std.specs.Prelude.{◌≡◌, ◌++◌, ◌<◌, [], IfOk, OnOk, length, slice_get};
ghost use Rattle.std.specs.List.{cons_option};
ghost use Rattle.hls_report_text.specs.Content.{content_of};
ghost use Rattle.hls_report_text.specs.WellFormed.{IsWellFormed};
ghost use Rattle.hls_view_shifts.specs.Shifts as told;

use crate::moving::{Moving, is_inside, moved_by};
use crate::rows::row_of;
use crate::stays::{has_lasted, is_lasting};
use hls_chron::List;
use hls_report_text::Report;
use hls_view_scale::Scale;
use hls_view_tale::{Label, hierarchy_at, standing_before};
use std::alloc::{AllocError, Global};

/// A move from a row to a row.
#[derive(Clone, Copy, Debug, PartialEq, Eq)]
pub struct Shift {
    pub tick: u32,
    /// The number of the row of the stay that it ends, from 0.
    pub from: u32,
    /// The number of the row of the stay that it opens, from 0.
    pub to: u32,
}

fn shift_between(tick: u32, from: Option<u32>, to: Option<u32>) -> Option<Shift>
    ensures { result ≡ told.shift_between tick from to }
{
    match (from, to) {
        (Some(from), Some(to)) => Some(Shift { tick, from, to }),
        _ => None,
    }
}

/// What is drawn of a move whose tick is shown, as is the one before it.
fn shift_by(
    alloc: Global,
    report: &Report,
    rows: &[List<Label>],
    moving: &Moving,
) -> Result<Option<Shift>, AllocError>
    requires formed { IsWellFormed report.now }
    requires few { length rows.now < 100000 }
    requires place { moving.now.place < length (content_of report.now).answered }
    ensures { IfOk result (λ shift. shift
        ≡ told.shift_by (content_of report.now) rows.now moving.now.place moving.now.tick moving.now.name) }
{
    let before = standing_before(alloc, report, moving.place)?;
    if !has_lasted(report.answered.items(), moving, &before) {
        return Ok(None);
    }
    let hierarchy = hierarchy_at(alloc, report, moving.tick)?;
    if !is_lasting(moving, &hierarchy.standing) {
        return Ok(None);
    }
    let earlier = hierarchy_at(alloc, report, moving.tick.saturating_sub(1))?;
    let from = row_of(alloc, &earlier.places, rows, &moving.name)?;
    let to = row_of(alloc, &hierarchy.places, rows, &moving.name)?;
    Ok(shift_between(moving.tick, from, to))
}

/// What is drawn of the command at a place.
fn shift_at(
    alloc: Global,
    report: &Report,
    scale: &Scale,
    rows: &[List<Label>],
    place: usize,
) -> Result<Option<Shift>, AllocError>
    requires formed { IsWellFormed report.now }
    requires few { length rows.now < 100000 }
    requires place { place < length (content_of report.now).answered }
    ensures { IfOk result (λ shift. shift ≡ told.shift_at (content_of report.now) scale.now rows.now place
        (slice_get (content_of report.now).answered place)) }
{
    let a = &report.answered.items()[place];
    let tick = a.tick;
    if !is_inside(scale, tick) {
        return Ok(None);
    }
    match moved_by(a) {
        Some(name) => shift_by(alloc, report, rows, &Moving { place, tick, name }),
        None => Ok(None),
    }
}

fn put_shift(shifts: &mut Vec<Shift>, shift: Option<Shift>) -> Result<(), AllocError>
    ensures { OnOk result (shifts.new.items ≡ shifts.old.items ++ cons_option shift []) }
{
    if let Some(shift) = shift {
        shifts.push(shift)?;
    }
    Ok(())
}

/// The moves in a picture of a report with these rows, in the order of their commands: each that was carried out in a
/// shown tick, where the stay that it ends and the stay that it opens both have a shown tick and a row.
///
/// # Errors
/// Returns `AllocError` where there is no memory for what is kept beside the report.
pub fn shifts_of(
    alloc: Global,
    report: &Report,
    scale: &Scale,
    rows: &[List<Label>],
) -> Result<Vec<Shift>, AllocError>
    requires formed { IsWellFormed report.now }
    requires few { length rows.now < 100000 }
    ensures { IfOk result (λ shifts. shifts.items ≡ told.shifts_among (content_of report.now) scale.now rows.now) }
{
    let mut shifts = Vec::new(alloc);
    for place in 0..report.answered.items().len() {
        put_shift(&mut shifts, shift_at(alloc, report, scale, rows, place)?)?;
    }
    Ok(shifts)
}
