// What names processes and tracks.
ghost use Rattle.std.specs.Prelude.{◌≡◌, ◌++◌, ◌∷◌, [], ◌<◌, OnOk, IfOk, Some, flat_map, length};
ghost use Rattle.hls_guarantee.specs.Limits.{IsValid};
ghost use Rattle.hls_view_trace.specs.declared.event.Event.TheVariants as variants;
ghost use Rattle.hls_view_drawing.specs.Rows.{last_label};
ghost use Rattle.hls_view_drawing.specs.Inside.Valid.{IsValidAt, AreValid};
ghost use Rattle.hls_view_timeline.specs.Naming as told;

use crate::ends::{is_leaf, last_label, put_way};
use crate::numbers::{commands_track, number_of, schedule_track, track_of};
use hls_chron::List;
use hls_text::put;
use hls_view_tale::Label;
use hls_view_texts::{guarantee_text, sort_text, terms_text};
use hls_view_trace::{Event, Place};
use std::alloc::{AllocError, Global};

/// A word behind a blank, if there is one.
fn put_word(text: &mut Vec<u8>, word: &[u8]) -> Result<(), AllocError>
    ensures { OnOk result (text.new.items ≡ text.old.items ++ told.word_text word.now) }
{
    if word.len() == 0 {
        return Ok(());
    }
    put(text, b" ")?;
    put(text, word)
}

/// On which terms somebody sits, and with which guarantee.
fn put_seat(alloc: Global, text: &mut Vec<u8>, label: &Label) -> Result<(), AllocError>
    requires { IsValid label.now.kept }
    ensures { OnOk result (text.new.items ≡ text.old.items ++ told.seat_text label.now) }
{
    let terms = terms_text(alloc, &label.terms)?;
    put_word(text, &terms)?;
    let guarantee = guarantee_text(alloc, &label.kept)?;
    put_word(text, &guarantee)
}

fn scheduler_text(alloc: Global, way: &[Label], label: &Label) -> Result<Vec<u8>, AllocError>
    requires { IsValid label.now.kept }
    ensures { IfOk result (λ text. text.items ≡ told.process_text way.now (Some label.now)) }
{
    let mut text = Vec::new(alloc);
    put_way(&mut text, way)?;
    let config = sort_text(alloc, &label.sort)?;
    put_word(&mut text, &config)?;
    put_seat(alloc, &mut text, label)?;
    Ok(text)
}

fn process_text(alloc: Global, way: &[Label]) -> Result<Vec<u8>, AllocError>
    requires { IsValidAt (last_label way.now) }
    ensures { IfOk result (λ text. text.items ≡ told.process_text way.now (last_label way.now)) }
{
    match last_label(way) {
        Some(label) => scheduler_text(alloc, way, label),
        None => b"cpu ALL".to_vec(alloc),
    }
}

fn thread_text(alloc: Global, label: &Label) -> Result<Vec<u8>, AllocError>
    requires { IsValid label.now.kept }
    ensures { IfOk result (λ text. text.items ≡ told.track_text (Some label.now)) }
{
    let mut text = label.name.bytes().to_vec(alloc)?;
    put_seat(alloc, &mut text, label)?;
    Ok(text)
}

fn track_text(alloc: Global, way: &[Label]) -> Result<Vec<u8>, AllocError>
    requires { IsValidAt (last_label way.now) }
    ensures { IfOk result (λ text. text.items ≡ told.track_text (last_label way.now)) }
{
    match last_label(way) {
        Some(label) => thread_text(alloc, label),
        None => Ok(Vec::new(alloc)),
    }
}

fn put_process(events: &mut Vec<Event>, process: usize, name: Vec<u8>) -> Result<(), AllocError>
    ensures { OnOk result (events.new.items ≡ events.old.items
        ++ (variants.ProcessName process name.items ∷ variants.ProcessOrder process process ∷ [])) }
{
    events.push(Event::ProcessName {
        process,
        name: List::of(name),
    })?;
    events.push(Event::ProcessOrder {
        process,
        order: process,
    })?;
    Ok(())
}

fn put_track(
    events: &mut Vec<Event>,
    place: Place,
    name: Vec<u8>,
    order: usize,
) -> Result<(), AllocError>
    ensures { OnOk result (events.new.items ≡ events.old.items
        ++ (variants.TrackName place name.items ∷ variants.TrackOrder place order ∷ [])) }
{
    events.push(Event::TrackName {
        place,
        name: List::of(name),
    })?;
    events.push(Event::TrackOrder { place, order })?;
    Ok(())
}

fn put_row(
    alloc: Global,
    events: &mut Vec<Event>,
    rows: &[List<Label>],
    way: &[Label],
) -> Result<(), AllocError>
    requires few { length rows.now < 4096 }
    requires valid { IsValidAt (last_label way.now) }
    ensures { OnOk result (events.new.items ≡ events.old.items ++ told.row_events rows.now way.now) }
{
    let number = number_of(rows, way);
    if is_leaf(way) {
        let name = track_text(alloc, way)?;
        put_track(events, track_of(rows, way), name, number)
    } else {
        let name = process_text(alloc, way)?;
        put_process(events, number, name)
    }
}

fn put_rows(alloc: Global, events: &mut Vec<Event>, rows: &[List<Label>]) -> Result<(), AllocError>
    requires few { length rows.now < 4096 }
    requires valid { AreValid rows.now }
    ensures { OnOk result (events.new.items
        ≡ events.old.items ++ flat_map (told.row_events rows.now) rows.now) }
{
    for way in rows {
        put_row(alloc, events, rows, way.items())?;
    }
    Ok(())
}

fn put_common(
    alloc: Global,
    events: &mut Vec<Event>,
    rows: &[List<Label>],
) -> Result<(), AllocError>
    requires few { length rows.now < 4096 }
    ensures { OnOk result (events.new.items ≡ events.old.items ++ told.common_events rows.now) }
{
    let schedule = b"schedule".to_vec(alloc)?;
    let commands = b"commands".to_vec(alloc)?;
    put_track(events, schedule_track(rows), schedule, 0)?;
    put_track(events, commands_track(rows), commands, 1)
}

/// Adds what names the processes and tracks of rows, and two tracks more.
///
/// # Errors
/// Returns `AllocError` for want of memory.
pub(crate) fn put_names(
    alloc: Global,
    events: &mut Vec<Event>,
    rows: &[List<Label>],
) -> Result<(), AllocError>
    requires few { length rows.now < 4096 }
    requires valid { AreValid rows.now }
    ensures { OnOk result (events.new.items ≡ events.old.items ++ told.naming_events rows.now) }
{
    put_rows(alloc, events, rows)?;
    put_common(alloc, events, rows)
}
