// When something may happen: a note for each command in a shown tick, and for each word on a thread.
ghost use Rattle.std.specs.Prelude.{◌≡◌, ◌<◌, IfOk, OnOk, length, drop, true};
ghost use Rattle.std.specs.Str.{bytes_eq};
ghost use Rattle.hls_text.specs.Lines.{Text};
ghost use Rattle.hls_legal.specs.Commands.{is_done, rouses};
ghost use Rattle.hls_report_text.specs.Content.{content_of};
ghost use Rattle.hls_view_signs.specs.Inside.Notes as told;

use hls_chron::Name;
use hls_report_text::{Answer, Report};
use hls_scenario::Command;
use hls_view_jobs::{Word, put_later};
use hls_view_scale::Scale;
use std::alloc::{AllocError, Global};

/// A tick that has a command, or a word on a thread, and the name of its node.
#[derive(Clone, Copy, Debug, PartialEq, Eq)]
pub(crate) struct Note {
    pub(crate) tick: u32,
    pub(crate) name: Name,
}

/// The name of the node that a command is about.
fn name_in(command: &Command) -> Name
    ensures { (name : Text) → rouses name command.now ≡ true → bytes_eq result name ≡ true }
{
    match command {
        Command::Load { name, .. } => *name,
        Command::Thread { name, .. } => *name,
        Command::End { name } => *name,
        Command::Unload { name } => *name,
        Command::Move { name, .. } => *name,
        Command::Wake { name, .. } => *name,
        Command::Block { name } => *name,
    }
}

fn is_shown(scale: &Scale, tick: u32) -> bool
    ensures { result ≡ told.is_shown scale.now tick }
{
    scale.from <= tick && tick <= scale.to
}

/// Puts a note behind others, if its tick is shown.
fn put_note(notes: &mut Vec<Note>, scale: &Scale, tick: u32, name: &Name) -> Result<(), AllocError>
    ensures { OnOk result (told.IsNoted scale.now tick name.now notes.old.items notes.new.items) }
{
    if is_shown(scale, tick) {
        notes.push(Note { tick, name: *name })?;
    }
    Ok(())
}

/// Notes words on the thread of a name.
fn put_words(
    notes: &mut Vec<Note>,
    scale: &Scale,
    name: &Name,
    words: &[Word],
) -> Result<(), AllocError>
    ensures { OnOk result (told.AreNoted scale.now name.now words.now notes.old.items notes.new.items) }
{
    for at in 0..words.len() {
        put_note(notes, scale, words[at].tick, name)?;
    }
    Ok(())
}

/// Notes the later releases of a command, before those commands that come after it, if it was carried out.
fn put_releases(
    alloc: Global,
    notes: &mut Vec<Note>,
    report: &Report,
    scale: &Scale,
    place: usize,
) -> Result<(), AllocError>
    requires { place < length report.now.answered }
    ensures { OnOk result (told.AreReleasesNoted report.now.horizon scale.now notes.old.items notes.new.items
        (drop place report.now.answered)) }
{
    let answered = report.answered.items();
    let a = &answered[place];
    if is_done(&a.answer) {
        let name = name_in(&a.command);
        let mut words = Vec::new(alloc);
        put_later(&mut words, report.horizon, a, &answered[place + 1..], &name)?;
        put_words(notes, scale, &name, &words)?;
    }
    Ok(())
}

fn is_done(answer: &Answer) -> bool
    ensures { result ≡ is_done answer.now }
{
    match answer {
        Answer::Done(_) => true,
        Answer::Refused(_) => false,
    }
}

/// Notes the command at a place, and its later releases.
fn put_command(
    alloc: Global,
    notes: &mut Vec<Note>,
    report: &Report,
    scale: &Scale,
    place: usize,
) -> Result<(), AllocError>
    requires { place < length report.now.answered }
    ensures grown { OnOk result (told.IsGrown notes.old.items notes.new.items) }
    ensures noted { OnOk result (told.FirstIsNoted report.now.horizon scale.now notes.new.items
        (drop place report.now.answered)) }
{
    let answered = report.answered.items();
    let a = &answered[place];
    let name = name_in(&a.command);
    put_note(notes, scale, a.tick, &name)?;
    put_releases(alloc, notes, report, scale, place)?;
    Ok(())
}

/// A note for each command in a shown tick, and for each word on a thread, tick by tick.
///
/// # Errors
/// Returns `AllocError` for want of memory.
pub(crate) fn notes_of(
    alloc: Global,
    report: &Report,
    scale: &Scale,
) -> Result<Vec<Note>, AllocError>
    ensures { IfOk result (λ notes. told.AreNotes (content_of report.now) scale.now notes.items) }
{
    let mut notes = Vec::new(alloc);
    for place in 0..report.answered.items().len() {
        put_command(alloc, &mut notes, report, scale, place)?;
    }
    notes.sort_by_key(|note| note.tick)?;
    Ok(notes)
}
