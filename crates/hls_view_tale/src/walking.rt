// The ways down through a tree of names.
ghost use Rattle.std.specs.Prelude.{◌≡◌, ◌++◌, [], OnOk, IfOk, map, reverse};
ghost use Rattle.hls_view_tale.specs.Places as places;
ghost use Rattle.hls_view_tale.specs.Inside.Pending.{pending_at, next_below, gone_into_all};

use crate::seats::labels_on;
use crate::{Label, Place};
use hls_audit_clauses::Member;
use hls_chron::Name;
use std::alloc::{AllocError, Global};

/// A place that is still to be gone into, in at most so many steps more.
#[derive(Debug, Drop)]
pub(crate) struct Pending {
    pub(crate) place: Place,
    pub(crate) left: usize,
}

/// Puts places onto a stack, the last of them first.
fn push_places(
    alloc: Global,
    stack: &mut Vec<Pending>,
    above: &[Label],
    left: usize,
    mut labels: Vec<Label>,
) -> Result<(), AllocError>
    ensures { OnOk result (stack.new.items
        ≡ stack.old.items ++ reverse (map (pending_at above.now left) labels.items)) }
{
    while let Some(label) = labels.pop() {
        let place = Place::below(alloc, above, &label)?;
        stack.push(Pending { place, left })?;
    }
    Ok(())
}

/// Puts the places directly below one onto a stack.
fn push_below(
    alloc: Global,
    stack: &mut Vec<Pending>,
    members: &[Member],
    next: &Pending,
) -> Result<(), AllocError>
    ensures { OnOk result (stack.new.items
        ≡ stack.old.items ++ reverse (next_below members.now next.now.left next.now.place)) }
{
    if next.left == 0 {
        return Ok(());
    }
    let labels = labels_on(alloc, members, &Some(next.place.label.name))?;
    let above = next.place.labels(alloc)?;
    push_places(alloc, stack, &above, next.left - 1, labels)
}

/// The places on a stack, each with all those below it.
fn all_of(
    alloc: Global,
    members: &[Member],
    mut stack: Vec<Pending>,
) -> Result<Vec<Place>, AllocError>
    ensures { IfOk result (λ found. found.items ≡ gone_into_all members.now stack.items) }
{
    let mut found = Vec::new(alloc);
    while let Some(next) = stack.pop() {
        push_below(alloc, &mut stack, members, &next)?;
        found.push(next.place)?;
    }
    Ok(found)
}

/// The places below a name, or below the processor where there is none, from there on: each before those below it, and
/// those on one scheduler in the order of the members, in at most so many steps.
///
/// # Errors
/// Returns `AllocError` for want of memory.
pub(crate) fn places_below(
    alloc: Global,
    members: &[Member],
    steps: usize,
    top: &Option<Name>,
) -> Result<Vec<Place>, AllocError>
    ensures { IfOk result (λ found. found.items ≡ places.below members.now steps top.now []) }
{
    if steps == 0 {
        return Ok(Vec::new(alloc));
    }
    let labels = labels_on(alloc, members, top)?;
    let mut stack = Vec::new(alloc);
    push_places(alloc, &mut stack, &[], steps - 1, labels)?;
    all_of(alloc, members, stack)
}
