// Who is told something in a tick.
ghost use Rattle.std.specs.Prelude.{◌≡◌, IfOk};
ghost use Rattle.hls_view_signs.specs.Inside.Notes.{AreInOrder};
ghost use Rattle.hls_view_signs.specs.Inside.Scenes as told;

use crate::notes::Note;
use hls_chron::Name;
use std::alloc::{AllocError, Global};

/// How many notes come before a tick.
fn before(notes: &[Note], tick: u32) -> usize
    requires { AreInOrder notes.now }
    ensures { told.AreBefore notes.now tick result }
{
    let mut low = 0;
    let mut high = notes.len();
    while low < high {
        let middle = low + (high - low) / 2;
        if notes[middle].tick < tick {
            low = middle + 1;
        } else {
            high = middle;
        }
    }
    low
}

/// Who is told something in a tick, by these notes.
///
/// # Errors
/// Returns `AllocError` for want of memory.
pub(crate) fn roused_in(alloc: Global, notes: &[Note], tick: u32) -> Result<Vec<Name>, AllocError>
    requires { AreInOrder notes.now }
    ensures { IfOk result (λ names. told.AreNamed notes.now tick names.items) }
{
    let mut names = Vec::new(alloc);
    for place in before(notes, tick)..notes.len() {
        let note = notes[place];
        if tick < note.tick {
            return Ok(names);
        }
        names.push(note.name)?;
    }
    Ok(names)
}

/// Whether a name is among those that are roused.
pub(crate) fn is_roused(names: &[Name], name: &Name) -> bool
    ensures { result ≡ told.is_roused names.now name.now }
{
    names.iter().any(|other| other == name)
}
