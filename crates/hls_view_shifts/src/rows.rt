// The row of a name.
ghost use Rattle.std.specs.Prelude.{◌≡◌, ◌==◌, ◌<◌, IfOk, IfSome, length, option_copied, position};
ghost use Rattle.std.specs.List.{list_all};
ghost use Rattle.hls_view_tale.specs.declared.label.Label as label;
ghost use Rattle.hls_view_lanes.specs.Likeness as likeness;
ghost use Rattle.hls_view_shifts.specs.Shifts as told;

use crate::stays::is_same_name;
use hls_chron::{List, Name};
use hls_view_lanes::is_same;
use hls_view_tale::{Label, Place};
use std::alloc::{AllocError, Global};

fn are_first(labels: &[Label]) -> bool
    ensures { result ≡ list_all (λ (l : label.Label). l.port == 0) labels.now }
{
    labels.iter().all(|label| label.port == 0)
}

/// Whether a place is one by first ports alone.
fn is_first(place: &Place) -> bool
    ensures { result ≡ told.is_first place.now }
{
    place.label.port == 0 && are_first(place.above.items())
}

/// The first place that a name has, port by port.
fn place_of<'a>(places: &'a [Place], name: &Name) -> Option<&'a Place>
    ensures { option_copied result ≡ told.place_of places.now name.now }
{
    places.iter().find(|place| is_same_name(&place.label.name, name) && is_first(place))
}

/// Where the first row that reads as a way stands.
fn row_like(rows: &[List<Label>], way: &[Label]) -> Option<usize>
    ensures is { result ≡ position (λ row. likeness.is_same row way.now) rows.now }
    ensures within { IfSome result (λ number. number < length rows.now) }
{
    rows.iter().position(|row| is_same(row.items(), way))
}

/// The number of the first row that reads as a place.
fn row_for(alloc: Global, rows: &[List<Label>], place: &Place) -> Result<Option<u32>, AllocError>
    requires few { length rows.now < 100000 }
    ensures { IfOk result (λ row. row ≡ told.row_like rows.now place.now) }
{
    let way = place.labels(alloc)?;
    match row_like(rows, &way) {
        Some(number) => Ok(Some(number as u32)),
        None => Ok(None),
    }
}

/// The number of the row of the first place that a name has.
///
/// # Errors
/// Returns `AllocError` for want of memory.
pub(crate) fn row_of(
    alloc: Global,
    places: &[Place],
    rows: &[List<Label>],
    name: &Name,
) -> Result<Option<u32>, AllocError>
    requires few { length rows.now < 100000 }
    ensures { IfOk result (λ row. row ≡ told.row_with rows.now (told.place_of places.now name.now)) }
{
    match place_of(places, name) {
        Some(place) => row_for(alloc, rows, place),
        None => Ok(None),
    }
}
