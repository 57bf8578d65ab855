// The texts of traces.
ghost use Rattle.std.specs.Prelude.{◌≡◌, ◌++◌, ◌*◌, OnOk, flat_map};
ghost use Rattle.hls_view_trace.specs.Events.{category_text, of_process, of_track, name_text, order_text};
ghost use Rattle.hls_view_trace.specs.Events.{counts_text, duration, mark_text, slice_text, instant_text, event_text};
ghost use Rattle.hls_view_trace.specs.Traces.{head_text, next_text, events_text, trace_text};

use crate::event::{Category, Counts, Event, Instant, Place, Slice, Trace};
use hls_view_pieces::Piece::{Number, Text};
use hls_view_pieces::put_pieces;
use std::alloc::AllocError;

fn category_word(category: Category) -> &'static [u8]
    ensures { result.now ≡ category_text category }
{
    match category {
        Category::Run => b"run",
        Category::Ready => b"ready",
        Category::Stay => b"stay",
        Category::Done => b"done",
        Category::Refused => b"refused",
    }
}

#[tactic(auto, unfolding(crate::specs::Events::of_process))]
fn put_of_process(out: &mut Vec<u8>, what: &[u8], process: usize) -> Result<(), AllocError>
    ensures { OnOk result (out.new.items ≡ out.old.items ++ of_process what.now process) }
{
    put_pieces(
        out,
        &[
            Text(b"{\"ph\":\"M\",\"name\":\"process_"),
            Text(what),
            Text(b"\",\"pid\":"),
            Number(process as u128),
        ],
    )
}

#[tactic(auto, unfolding(crate::specs::Events::of_track))]
fn put_of_track(out: &mut Vec<u8>, what: &[u8], place: &Place) -> Result<(), AllocError>
    ensures { OnOk result (out.new.items ≡ out.old.items ++ of_track what.now place.now) }
{
    put_pieces(
        out,
        &[
            Text(b"{\"ph\":\"M\",\"name\":\"thread_"),
            Text(what),
            Text(b"\",\"pid\":"),
            Number(place.process as u128),
            Text(b",\"tid\":"),
            Number(place.track as u128),
        ],
    )
}

#[tactic(auto, unfolding(crate::specs::Events::name_text))]
fn put_name(out: &mut Vec<u8>, name: &[u8]) -> Result<(), AllocError>
    ensures { OnOk result (out.new.items ≡ out.old.items ++ name_text name.now) }
{
    put_pieces(
        out,
        &[Text(b",\"args\":{\"name\":\""), Text(name), Text(b"\"}}")],
    )
}

#[tactic(auto, unfolding(crate::specs::Events::order_text))]
fn put_order(out: &mut Vec<u8>, order: usize) -> Result<(), AllocError>
    ensures { OnOk result (out.new.items ≡ out.old.items ++ order_text order) }
{
    put_pieces(
        out,
        &[
            Text(b",\"args\":{\"sort_index\":"),
            Number(order as u128),
            Text(b"}}"),
        ],
    )
}

fn put_counts(out: &mut Vec<u8>, counts: &Option<Counts>) -> Result<(), AllocError>
    ensures { OnOk result (out.new.items ≡ out.old.items ++ counts_text counts.now) }
{
    match counts {
        Some(counts) => put_pieces(
            out,
            &[
                Text(b"\"ready\":"),
                Number(u128::from(counts.ready)),
                Text(b",\"served\":"),
                Number(u128::from(counts.served)),
            ],
        ),
        None => Ok(()),
    }
}

/// In how many microseconds a tick begins.
fn stamp(tick: u32, at: u32) -> u128
    ensures { result ≡ at * tick }
{
    u128::from(at) * u128::from(tick)
}

/// How many microseconds there are from a tick to another, both included.
fn duration(tick: u32, from: u32, to: u32) -> u128
    ensures { result ≡ duration tick from to }
{
    (u128::from(to) + 1).saturating_sub(u128::from(from)) * u128::from(tick)
}

#[tactic(auto, unfolding(crate::specs::Events::mark_text))]
fn put_mark<'a>(
    out: &mut Vec<u8>,
    category: &'a [u8],
    name: &'a [u8],
    place: &Place,
    stamp: u128,
) -> Result<(), AllocError>
    ensures { OnOk result (out.new.items
        ≡ out.old.items ++ mark_text category.now name.now place.now stamp) }
{
    put_pieces(
        out,
        &[
            Text(b",\"cat\":\""),
            Text(category),
            Text(b"\",\"name\":\""),
            Text(name),
            Text(b"\",\"pid\":"),
            Number(place.process as u128),
            Text(b",\"tid\":"),
            Number(place.track as u128),
            Text(b",\"ts\":"),
            Number(stamp),
        ],
    )
}

#[tactic(auto, unfolding(crate::specs::Events::slice_text))]
fn put_slice(out: &mut Vec<u8>, tick: u32, slice: &Slice) -> Result<(), AllocError>
    ensures { OnOk result (out.new.items ≡ out.old.items ++ slice_text tick slice.now) }
{
    put_pieces(out, &[Text(b"{\"ph\":\"X\"")])?;
    put_mark(
        out,
        category_word(slice.category),
        slice.name.items(),
        &slice.place,
        stamp(tick, slice.from),
    )?;
    put_pieces(
        out,
        &[
            Text(b",\"dur\":"),
            Number(duration(tick, slice.from, slice.to)),
            Text(b",\"args\":{"),
        ],
    )?;
    put_counts(out, &slice.counts)?;
    put_pieces(out, &[Text(b"}}")])
}

#[tactic(auto, unfolding(crate::specs::Events::instant_text))]
fn put_instant(out: &mut Vec<u8>, tick: u32, instant: &Instant) -> Result<(), AllocError>
    ensures { OnOk result (out.new.items ≡ out.old.items ++ instant_text tick instant.now) }
{
    put_pieces(out, &[Text(b"{\"ph\":\"i\",\"s\":\"t\"")])?;
    put_mark(
        out,
        category_word(instant.category),
        instant.name.items(),
        &instant.place,
        stamp(tick, instant.tick),
    )?;
    put_pieces(out, &[Text(b",\"args\":{\"answer\":\"")])?;
    put_pieces(out, &[Text(instant.answer.items()), Text(b"\"}}")])
}

#[tactic(auto, unfolding(crate::specs::Events::event_text))]
fn put_event(out: &mut Vec<u8>, tick: u32, event: &Event) -> Result<(), AllocError>
    ensures { OnOk result (out.new.items ≡ out.old.items ++ event_text tick event.now) }
{
    match event {
        Event::ProcessName { process, name } => {
            put_of_process(out, b"name", *process)?;
            put_name(out, name.items())
        }
        Event::ProcessOrder { process, order } => {
            put_of_process(out, b"sort_index", *process)?;
            put_order(out, *order)
        }
        Event::TrackName { place, name } => {
            put_of_track(out, b"name", place)?;
            put_name(out, name.items())
        }
        Event::TrackOrder { place, order } => {
            put_of_track(out, b"sort_index", place)?;
            put_order(out, *order)
        }
        Event::Slice(slice) => put_slice(out, tick, slice),
        Event::Instant(instant) => put_instant(out, tick, instant),
    }
}

fn put_next_events(out: &mut Vec<u8>, tick: u32, events: &[Event]) -> Result<(), AllocError>
    ensures { OnOk result (out.new.items ≡ out.old.items ++ flat_map (next_text tick) events.now) }
{
    for event in events {
        put_pieces(out, &[Text(b",\n")])?;
        put_event(out, tick, event)?;
    }
    Ok(())
}

fn put_events(out: &mut Vec<u8>, tick: u32, events: &[Event]) -> Result<(), AllocError>
    ensures { OnOk result (out.new.items ≡ out.old.items ++ events_text tick events.now) }
{
    match events {
        [] => Ok(()),
        [first, rest @ ..] => {
            put_event(out, tick, first)?;
            put_next_events(out, tick, rest)
        }
    }
}

#[tactic(auto, unfolding(crate::specs::Traces::head_text))]
fn put_head(out: &mut Vec<u8>, trace: &Trace) -> Result<(), AllocError>
    ensures { OnOk result (out.new.items
        ≡ out.old.items ++ head_text trace.now.horizon trace.now.tick trace.now.verdict) }
{
    put_pieces(
        out,
        &[
            Text(b"{\"displayTimeUnit\":\"ms\",\"otherData\":{\"horizon\":"),
            Number(u128::from(trace.horizon)),
            Text(b",\"tick\":"),
            Number(u128::from(trace.tick)),
            Text(b",\"audit\":\""),
            Text(trace.verdict.items()),
            Text(b"\"},\"traceEvents\":[\n"),
        ],
    )
}

/// Appends the text of a trace.
///
/// # Errors
/// Returns `AllocError` for want of memory.
#[tactic(auto, unfolding(crate::specs::Traces::trace_text))]
pub fn write_trace(out: &mut Vec<u8>, trace: &Trace) -> Result<(), AllocError>
    ensures { OnOk result (out.new.items ≡ out.old.items ++ trace_text trace.now) }
{
    put_head(out, trace)?;
    put_events(out, trace.tick, trace.events.items())?;
    put_pieces(out, &[Text(b"\n]}\n")])
}
