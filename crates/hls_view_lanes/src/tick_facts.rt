// Three facts of a row and a tick.
ghost use Rattle.std.specs.Prelude.{◌≡◌, ◌<◌, IfOk, map, length, option_copied, get_or, false};
ghost use Rattle.std.specs.List.{range_with_len};
ghost use Rattle.hls_view_lanes.specs.Facts as told;
ghost use Rattle.hls_view_lanes.specs.Inside.Present as seen;

use crate::likeness::begins;
use crate::present::Present;
use hls_chron::List;
use hls_view_tale::Label;
use std::alloc::{AllocError, Global};

/// What is so of a row in a tick.
#[derive(Clone, Copy, Debug, PartialEq, Eq)]
pub struct Facts {
    /// Somebody has this place.
    pub here: bool,
    /// A thread that is ready is there or below.
    pub ready: bool,
    /// The tick goes to a thread there or below.
    pub served: bool,
}

/// Whether a way is there that begins with a row and that a tick is given.
fn is_through(row: &[Label], given: Option<&List<Label>>) -> bool
    ensures { result ≡ told.is_through row.now (option_copied given.entry) }
{
    match given {
        Some(way) => begins(row, way.items()),
        None => false,
    }
}

/// Whether the way that a tick is given begins with each of these rows.
///
/// # Errors
/// Returns `AllocError` for want of memory.
pub(crate) fn all_through(
    alloc: Global,
    rows: &[List<Label>],
    given: Option<&List<Label>>,
) -> Result<Vec<bool>, AllocError>
    ensures { IfOk result (λ all. all.items ≡ map (λ row. told.is_through row (option_copied given.entry)) rows.now) }
{
    let mut all = Vec::new(alloc);
    for row in rows {
        all.push(is_through(row.items(), given))?;
    }
    Ok(all)
}

fn is_set(flags: &[bool], place: usize) -> bool
    ensures { result ≡ get_or flags.now place false }
{
    match flags.get(place) {
        Some(flag) => *flag,
        None => false,
    }
}

/// Whether one of the flags at these places is set.
fn any_at(flags: &[bool], places: &[usize]) -> bool
    ensures { result ≡ seen.any_at flags.now places.now }
{
    places.iter().any(|place| is_set(flags, *place))
}

/// The facts of each row, by the ways that somebody has, which of them end in ready threads, and through which rows the
/// tick goes.
///
/// # Errors
/// Returns `AllocError` for want of memory.
pub(crate) fn all_facts(
    alloc: Global,
    present: &Present,
    asking: &[bool],
    through: &[bool],
) -> Result<Vec<Facts>, AllocError>
    requires here { length present.now.here.items ≡ length present.now.below.items }
    requires through { length through.now ≡ length present.now.below.items }
    ensures { IfOk result (λ facts. facts.items ≡ map (seen.facts_at present.now asking.now through.now)
        (range_with_len 0 (length present.now.below.items))) }
{
    let mut facts = Vec::with_capacity(alloc, present.below.len())?;
    for row in 0..present.below.len() {
        facts.push(Facts {
            here: present.here[row],
            ready: any_at(asking, present.below[row].items()),
            served: through[row],
        })?;
    }
    Ok(facts)
}
