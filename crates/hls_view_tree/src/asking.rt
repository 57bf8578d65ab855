// The ways down to the threads that are ready at a tick.
ghost use Rattle.std.specs.Prelude.{◌≡◌, ◌<◌, ◌++◌, ◌∷◌, [], IfOk, OnOk, Some, filter, map};
ghost use Rattle.std.specs.Prelude.{if◌then◌else◌};
ghost use Rattle.hls_report_text.specs.Content.{content_of};
ghost use Rattle.hls_report_text.specs.WellFormed.{IsWellFormed};
ghost use Rattle.hls_legal.specs.Ready as ready;
ghost use Rattle.hls_audit_threads.specs.Inside.Lookups.{IsLookup};
ghost use Rattle.hls_audit_threads.specs.Inside.KnownThreads.{AreKnown};
ghost use Rattle.hls_audit_clauses.specs.Names.{is_thread_sort};
ghost use Rattle.hls_view_tree.specs.Activities as activities;

use hls_audit_clauses::Sort;
use hls_audit_threads::{KnownThreads, Lookup};
use hls_chron::{List, Name};
use hls_report_text::Report;
use hls_view_tale::Place;
use std::alloc::{AllocError, Global};

/// The names on the way down to a place, its own last.
///
/// # Errors
/// Returns `AllocError` for want of memory.
pub(crate) fn names_of(alloc: Global, place: &Place) -> Result<List<Name>, AllocError>
    ensures { IfOk result (λ names. names ≡ activities.names_of place.now) }
{
    let mut names = Vec::new(alloc);
    for label in place.above.items() {
        names.push(label.name)?;
    }
    names.push(place.label.name)?;
    Ok(List::of(names))
}

/// Whether the thread of a name is ready at a tick.
fn is_ready(
    alloc: Global,
    report: &Report,
    lookup: &Lookup,
    known: &mut KnownThreads,
    name: &Name,
    tick: u32,
) -> Result<bool, AllocError>
    requires formed { IsWellFormed report.now }
    requires lookup { IsLookup report.now lookup.now }
    requires early { tick < report.now.horizon }
    requires known { AreKnown (content_of report.now) known.old }
    ensures known { OnOk result (AreKnown (content_of report.now) known.new) }
    ensures ready { IfOk result (λ is. is ≡ ready.is_ready (content_of report.now) name.now tick) }
{
    let place = known.place_of(alloc, report, lookup, name)?;
    Ok(known.ticks[place].ready.count(tick, 1) == 1)
}

fn is_thread(sort: &Sort) -> bool
    ensures { result ≡ is_thread_sort (Some sort.now) }
{
    match sort {
        Sort::Thread => true,
        Sort::Scheduler { .. } => false,
    }
}

/// Whether the node of a place is a thread that is ready at a tick.
fn is_asking(
    alloc: Global,
    report: &Report,
    lookup: &Lookup,
    known: &mut KnownThreads,
    place: &Place,
    tick: u32,
) -> Result<bool, AllocError>
    requires formed { IsWellFormed report.now }
    requires lookup { IsLookup report.now lookup.now }
    requires early { tick < report.now.horizon }
    requires known { AreKnown (content_of report.now) known.old }
    ensures known { OnOk result (AreKnown (content_of report.now) known.new) }
    ensures asking { IfOk result (λ is. is ≡ activities.is_asking (content_of report.now) tick place.now) }
{
    if !is_thread(&place.label.sort) {
        return Ok(false);
    }
    is_ready(alloc, report, lookup, known, &place.label.name, tick)
}

fn put_if(
    alloc: Global,
    asking: &mut Vec<List<Name>>,
    is: bool,
    place: &Place,
) -> Result<(), AllocError>
    ensures { OnOk result (asking.new.items
        ≡ asking.old.items ++ (if is then activities.names_of place.now ∷ [] else [])) }
{
    if is {
        asking.push(names_of(alloc, place)?)?;
    }
    Ok(())
}

/// The ways down to those of these places whose node is a thread that is ready at a tick.
///
/// # Errors
/// Returns `AllocError` for want of memory.
pub(crate) fn asking_of(
    alloc: Global,
    report: &Report,
    lookup: &Lookup,
    places: &[Place],
    tick: u32,
) -> Result<Vec<List<Name>>, AllocError>
    requires formed { IsWellFormed report.now }
    requires lookup { IsLookup report.now lookup.now }
    requires early { tick < report.now.horizon }
    ensures { IfOk result (λ all. all.items
        ≡ map activities.names_of (filter (activities.is_asking (content_of report.now) tick) places.now)) }
{
    let mut known = KnownThreads::new(alloc);
    let mut asking = Vec::new(alloc);
    for place in places {
        let is = is_asking(alloc, report, lookup, &mut known, place, tick)?;
        put_if(alloc, &mut asking, is, place)?;
    }
    Ok(asking)
}
