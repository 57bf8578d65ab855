// The flame of a schedule.
ghost use Rattle.std.specs.Prelude.{◌≡◌, ◌++◌, ◌<◌, [], IfOk, OnOk, length, map, get_or, take};
ghost use Rattle.std.specs.List.{AllByRecursion};
ghost use Rattle.hls_report_text.specs.Content.{content_of, stretch_of};
ghost use Rattle.hls_report_text.specs.WellFormed.{HasShort, IsWellFormed};
ghost use Rattle.hls_view_trace.specs.declared.event.Event.TheVariants as events;
ghost use Rattle.hls_view_tracks.specs.Flame as told;
ghost use Rattle.hls_view_tracks.specs.Inside.Paths.{places_in, named};

use crate::paths::{begins, name_at, places_of};
use hls_chron::{List, Name};
use hls_report_text::{Report, Run};
use hls_view_trace::{Category, Event, Place, Slice};
use std::alloc::{AllocError, Global};

/// The last tick of the runs in a row, behind one that ends at a tick, whose paths begin with these names.
#[tactic(auto, using(crate::proofs::FlameLaws::goes_on, crate::proofs::FlameLaws::goes_off))]
fn last_tick(names: &[Name], above: &[u16], to: u32, more: &[Run]) -> u32
    requires { AllByRecursion (λ run. HasShort run.path) more.now }
    ensures { result
        ≡ told.last_tick (named names.now above.now) to (map (stretch_of names.now) more.now) }
{
    let mut last = to;
    for run in more {
        if !begins(names, above, places_of(run)) {
            return last;
        }
        last = run.to;
    }
    last
}

fn run_slice(
    alloc: Global,
    place: Place,
    name: &[u8],
    from: u32,
    to: u32,
) -> Result<Slice, AllocError>
    ensures { IfOk result (λ slice. events.Slice slice ≡ told.run_slice place name.now from to) }
{
    Ok(Slice {
        category: Category::Run,
        name: List::of(name.to_vec(alloc)?),
        place,
        from,
        to,
        counts: None,
    })
}

/// A run of a schedule, the path before it and the runs behind it, and where it is shown.
#[derive(Clone, Copy)]
struct Turn<'a> {
    names: &'a [Name],
    place: Place,
    before: &'a [u16],
    run: &'a Run,
    more: &'a [Run],
}

/// Adds the slice of the last of some names of a run's path, if one begins with the run.
fn put_slice(
    alloc: Global,
    events: &mut Vec<Event>,
    turn: &Turn,
    above: &[u16],
    place: u16,
) -> Result<(), AllocError>
    requires { AllByRecursion (λ run. HasShort run.path) turn.now.more.now }
    ensures { OnOk result (events.new.items ≡ events.old.items
        ++ told.slice_of turn.now.place (named turn.now.names.now turn.now.before.now)
        (stretch_of turn.now.names.now turn.now.run.now)
        (map (stretch_of turn.now.names.now) turn.now.more.now)
        (named turn.now.names.now above.now) (get_or turn.now.names.now place [])) }
{
    if begins(turn.names, above, turn.before) {
        return Ok(());
    }
    let to = last_tick(turn.names, above, turn.run.to, turn.more);
    let name = name_at(turn.names, place);
    let slice = run_slice(alloc, turn.place, name, turn.run.from, to)?;
    events.push(Event::Slice(slice))?;
    Ok(())
}

/// Adds the slices that begin with a run, from the root down.
#[tactic(auto, using(crate::proofs::FlameLaws::one_more))]
fn put_slices(alloc: Global, events: &mut Vec<Event>, turn: &Turn) -> Result<(), AllocError>
    requires short { HasShort turn.now.run.now.path }
    requires all_short { AllByRecursion (λ run. HasShort run.path) turn.now.more.now }
    ensures { OnOk result (events.new.items ≡ events.old.items
        ++ told.slices_below turn.now.place (named turn.now.names.now turn.now.before.now)
        (stretch_of turn.now.names.now turn.now.run.now)
        (map (stretch_of turn.now.names.now) turn.now.more.now) []
        (named turn.now.names.now (places_in turn.now.run.now.path))) }
{
    let places = places_of(turn.run);
    for depth in 0..places.len() {
        put_slice(alloc, events, turn, &places[..depth + 1], places[depth])?;
    }
    Ok(())
}

#[tactic(auto, using(crate::proofs::FlameLaws::run_more))]
fn flame_of(
    alloc: Global,
    names: &[Name],
    place: Place,
    runs: &[Run],
) -> Result<Vec<Event>, AllocError>
    requires { AllByRecursion (λ run. HasShort run.path) runs.now }
    ensures { IfOk result (λ events.
        events.items ≡ told.flame place [] (map (stretch_of names.now) runs.now)) }
{
    let mut events = Vec::new(alloc);
    let mut before: &[u16] = &[];
    let mut rest = runs;
    while let Some((run, more)) = rest.split_first() {
        let turn = Turn {
            names,
            place,
            before,
            run,
            more,
        };
        put_slices(alloc, &mut events, &turn)?;
        before = places_of(run);
        rest = more;
    }
    Ok(events)
}

/// The flame of a report's schedule on a track: for each name on the way down to whom ticks were given a slice, as long
/// as the ways go on to begin with the same names, the outer before the inner.
///
/// # Errors
/// Returns `AllocError` for want of memory.
pub fn schedule_events(
    alloc: Global,
    report: &Report,
    place: Place,
) -> Result<Vec<Event>, AllocError>
    requires { IsWellFormed report.now }
    ensures { IfOk result (λ events. events.items ≡ told.flame place [] (content_of report.now).stretches) }
{
    flame_of(alloc, report.names.items(), place, report.runs.items())
}
