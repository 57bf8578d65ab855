// The ways that somebody has at present.
ghost use Rattle.std.specs.Prelude.{◌≡◌, ◌<◌, IfOk, map, length, get_or};
ghost use Rattle.std.specs.List.{list_any};
ghost use Rattle.hls_report_text.specs.Content.{Content};
ghost use Rattle.hls_view_lanes.specs.Inside.Present as told;

use crate::asking::{Asking, UNKNOWN};
use crate::likeness::{begins, is_same};
use hls_chron::List;
use hls_view_tale::Label;
use std::alloc::{AllocError, Global};

/// The ways that somebody has at present, by the rows that they begin with.
#[derive(Drop)]
pub(crate) struct Present {
    pub(crate) ways: Vec<List<Label>>,
    /// Whether each way ends in a ready thread, as far as that is known.
    pub(crate) asking: Vec<Asking>,
    /// Of each row the places of the ways that begin with it.
    pub(crate) below: Vec<List<usize>>,
    /// Whether somebody has the place of each row.
    pub(crate) here: Vec<bool>,
}

/// The places of the ways that begin with a row.
fn below_of(alloc: Global, ways: &[List<Label>], row: &[Label]) -> Result<List<usize>, AllocError>
    ensures { IfOk result (λ below. below ≡ told.below_of ways.now row.now) }
{
    let mut below = Vec::new(alloc);
    for (at, way) in ways.iter().enumerate() {
        if begins(row, way.items()) {
            below.push(at)?;
        }
    }
    Ok(List::of(below))
}

fn all_below(
    alloc: Global,
    ways: &[List<Label>],
    rows: &[List<Label>],
) -> Result<Vec<List<usize>>, AllocError>
    ensures { IfOk result (λ all. all.items ≡ map (told.below_of ways.now) rows.now) }
{
    let mut all = Vec::new(alloc);
    for row in rows {
        all.push(below_of(alloc, ways, row.items())?)?;
    }
    Ok(all)
}

fn is_here(ways: &[List<Label>], row: &[Label]) -> bool
    ensures { result ≡ told.is_here ways.now row.now }
{
    ways.iter().any(|way| is_same(row, way.items()))
}

fn all_here(
    alloc: Global,
    ways: &[List<Label>],
    rows: &[List<Label>],
) -> Result<Vec<bool>, AllocError>
    ensures { IfOk result (λ all. all.items ≡ map (told.is_here ways.now) rows.now) }
{
    let mut all = Vec::new(alloc);
    for row in rows {
        all.push(is_here(ways, row.items()))?;
    }
    Ok(all)
}

/// Nothing is known of any way.
fn all_unknown(alloc: Global, ways: &[List<Label>]) -> Result<Vec<Asking>, AllocError>
    ensures { IfOk result (λ all. all.items ≡ map (λ way. told.unknown) ways.now) }
{
    let mut all = Vec::new(alloc);
    for _way in ways {
        all.push(UNKNOWN)?;
    }
    Ok(all)
}

impl Present {
    /// Of these ways and rows.
    ///
    /// # Errors
    /// Returns `AllocError` for want of memory.
    pub(crate) fn of(
        alloc: Global,
        rows: &[List<Label>],
        ways: Vec<List<Label>>,
    ) -> Result<Present, AllocError>
        ensures { IfOk result (λ p. (c : Content) → told.IsPresent c rows.now ways.items p) }
    {
        let asking = all_unknown(alloc, &ways)?;
        let below = all_below(alloc, &ways, rows)?;
        let here = all_here(alloc, &ways, rows)?;
        Ok(Present {
            ways,
            asking,
            below,
            here,
        })
    }
}
