// Rows, one for each way down that somebody has.
ghost use Rattle.std.specs.Prelude.{◌≡◌, ◌≤◌, List, OnOk, fold, length};
ghost use Rattle.hls_view_tale.specs.declared.label.Label as tale;
ghost use Rattle.hls_view_lanes.specs.Rows as told;

use crate::likeness::{begins, is_same};
use hls_chron::List;
use hls_view_tale::Label;
use std::alloc::{AllocError, Global};

fn has_row(rows: &[List<Label>], way: &[Label]) -> bool
    ensures { result ≡ told.has_row rows.now way.now }
{
    rows.iter().any(|row| is_same(row.items(), way))
}

/// How many rows there are up to the last that begins with a way.
fn reach(above: &[Label], rows: &[List<Label>]) -> usize
    ensures within { result ≤ length rows.now }
    ensures reach { result ≡ told.reach above.now rows.now }
{
    let mut reach = 0;
    for (at, row) in rows.iter().enumerate() {
        if begins(above, row.items()) {
            reach = at + 1;
        }
    }
    reach
}

/// Adds the row of a way, unless there is one, behind the row above it and all that are below that one.
fn add_row(alloc: Global, rows: &mut Vec<List<Label>>, way: &[Label]) -> Result<(), AllocError>
    ensures { OnOk result (rows.new.items ≡ told.with_row rows.old.items way.now) }
{
    if has_row(rows, way) {
        return Ok(());
    }
    let above = &way[..way.len().saturating_sub(1)];
    let at = reach(above, rows);
    rows.insert(at, List::of(way.to_vec(alloc)?))?;
    Ok(())
}

/// Adds the rows of a way and of its beginnings, unless it has one.
fn add_rows_of(alloc: Global, rows: &mut Vec<List<Label>>, way: &[Label]) -> Result<(), AllocError>
    ensures { OnOk result (rows.new.items ≡ told.with_rows rows.old.items way.now) }
{
    if has_row(rows, way) {
        return Ok(());
    }
    for labels in 0..way.len() + 1 {
        add_row(alloc, rows, &way[..labels])?;
    }
    Ok(())
}

/// Adds the rows of these ways, one after another.
///
/// # Errors
/// Returns `AllocError` for want of memory.
pub(crate) fn add_rows(
    alloc: Global,
    rows: &mut Vec<List<Label>>,
    ways: &[List<Label>],
) -> Result<(), AllocError>
    ensures { OnOk result (rows.new.items ≡ fold told.with_rows rows.old.items ways.now) }
{
    for way in ways {
        add_rows_of(alloc, rows, way.items())?;
    }
    Ok(())
}
