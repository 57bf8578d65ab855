// Counts by columns.
ghost use Rattle.std.specs.Prelude.{◌≡◌, IfOk, map};
ghost use Rattle.std.specs.List.{range_with_len};
ghost use Rattle.hls_view_lanes.specs.Inside.Tallies as told;

use crate::tallies::{Tally, tally_at};
use hls_chron::List;
use std::alloc::{AllocError, Global};

/// At how many ticks of each column, from the first, each fact holds of a row.
#[derive(Debug, Drop)]
pub struct Counts {
    /// Somebody has this place.
    pub here: List<u32>,
    /// A thread that is ready is there or below.
    pub ready: List<u32>,
    /// The tick goes to a thread there or below.
    pub served: List<u32>,
}

/// The tallies at one place of each column.
fn counts_at(alloc: Global, columns: &[List<Tally>], place: usize) -> Result<Counts, AllocError>
    ensures { IfOk result (λ counts. counts ≡ told.counts_at columns.now place) }
{
    let mut here = Vec::new(alloc);
    let mut ready = Vec::new(alloc);
    let mut served = Vec::new(alloc);
    for column in columns {
        let tally = tally_at(column.items(), place);
        here.push(tally.here)?;
        ready.push(tally.ready)?;
        served.push(tally.served)?;
    }
    Ok(Counts {
        here: List::of(here),
        ready: List::of(ready),
        served: List::of(served),
    })
}

/// The tallies at each of so many places, column by column.
///
/// # Errors
/// Returns `AllocError` for want of memory.
pub(crate) fn all_counts(
    alloc: Global,
    columns: &[List<Tally>],
    places: usize,
) -> Result<Vec<Counts>, AllocError>
    ensures { IfOk result (λ counts. counts.items ≡ map (told.counts_at columns.now) (range_with_len 0 places)) }
{
    let mut counts = Vec::new(alloc);
    for place in 0..places {
        counts.push(counts_at(alloc, columns, place)?)?;
    }
    Ok(counts)
}
