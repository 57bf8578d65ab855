// The stays of threads, by the commands alone.
ghost use Rattle.std.specs.Prelude.{◌≡◌, ◌+◌, ◌≤◌, ◌<◌, ◌++◌, [], ◌∷◌, IfOk, OnOk, map, take, drop, length};
ghost use Rattle.std.specs.Prelude.{if◌then◌else◌, option_to_list, filter, slice_get, Some};
ghost use Rattle.hls_legal.specs.Commands as said;
ghost use Rattle.hls_legal.specs.Under.{is_under};
ghost use Rattle.hls_legal.specs.Stays as told;

use crate::commands::{is_done, is_ended, last_seating, same_name};
use crate::under::is_under;
use hls_chron::Name;
use hls_guarantee::Guarantee;
use hls_legal::Stay;
use hls_report_text::Answered;
use hls_scenario::Command;
use std::alloc::{AllocError, Global};

/// The thread that a command admits, unless one of those after ends it.
fn admitted(a: &Answered, after: &[Answered]) -> Option<Name>
    ensures { option_to_list result
        ≡ (if said.is_done a.now.answer then told.admits a.now.command after.now else []) }
{
    match &a.command {
        Command::Thread { name, .. } if is_done(&a.answer) && !is_ended(name, after) => Some(*name),
        _ => None,
    }
}

/// The threads that are there after these commands, in the order of their admissions.
fn threads(alloc: Global, answered: &[Answered]) -> Result<Vec<Name>, AllocError>
    ensures { IfOk result (λ names. names.items ≡ told.threads answered.now) }
{
    let mut names = Vec::new(alloc);
    for i in 0..answered.len() {
        if let Some(name) = admitted(&answered[i], &answered[i + 1..]) {
            names.push(name)?;
        }
    }
    Ok(names)
}

/// The moved thread, or the threads below a moved scheduler.
fn moved(alloc: Global, before: &[Answered], above: &Name) -> Result<Vec<Name>, AllocError>
    ensures { IfOk result (λ names. names.items
        ≡ filter (is_under before.now above.now) (told.threads before.now)) }
{
    threads(alloc, before)?
        .iter()
        .filter(|name| is_under(before, above, name))
        .copied()
        .collect(alloc)
}

/// The threads whose stays begin with a command.
fn opened(alloc: Global, before: &[Answered], a: &Answered) -> Result<Vec<Name>, AllocError>
    ensures { IfOk result (λ names. names.items ≡ told.opened before.now a.now) }
{
    if !is_done(&a.answer) {
        return Ok(Vec::new(alloc));
    }
    match &a.command {
        Command::Thread { name, .. } => Ok(vec![in alloc; *name]?),
        Command::Move { name, .. } => moved(alloc, before, name),
        _ => Ok(Vec::new(alloc)),
    }
}

/// Whether a command ends the stay that a thread has.
fn closes(before: &[Answered], name: &Name, a: &Answered) -> bool
    ensures { result ≡ said.has_done (told.closes before.now name.now) a.now }
{
    is_done(&a.answer)
        && match &a.command {
            Command::End { name: other } => same_name(other, name),
            Command::Move { name: other, .. } => is_under(before, other, name),
            _ => false,
        }
}

/// The tick of the first command, from a place on, that ends the stay of a thread.
fn closed(answered: &[Answered], from: usize, name: &Name) -> Option<u32>
    requires { from ≤ length answered.now }
    ensures { result ≡ told.closed (take from answered.now) (drop from answered.now) name.now }
{
    for i in from..answered.len() {
        let a = &answered[i];
        if closes(&answered[..i], name, a) {
            return Some(a.tick);
        }
    }
    None
}

/// What a command wants for its seat.
fn want_in(command: &Command) -> Guarantee
    ensures { result ≡ told.want_in command.now }
{
    match command {
        Command::Thread { perch, .. } => perch.want,
        Command::Move { perch, .. } => perch.want,
        _ => Guarantee::Null,
    }
}

/// What is guaranteed for a thread after these commands.
fn want(name: &Name, commands: &[Answered]) -> Guarantee
    ensures { result ≡ told.want_of (said.last_seating name.now commands.now) }
{
    match last_seating(name, commands) {
        Some(a) => want_in(&a.command),
        None => Guarantee::Null,
    }
}

/// The stay of a thread that the command at a place opens.
fn stay(answered: &[Answered], place: usize, since: u32, name: &Name) -> Stay
    requires { place < length answered.now }
    ensures { result
        ≡ told.stay_of (take (place + 1) answered.now) (drop (place + 1) answered.now) since name.now }
{
    Stay {
        name: *name,
        kept: want(name, &answered[..place + 1]),
        since,
        until: closed(answered, place + 1, name),
    }
}

/// Puts the stays that the command at a place opens behind others.
fn put_stays(
    alloc: Global,
    out: &mut Vec<Stay>,
    answered: &[Answered],
    place: usize,
    a: &Answered,
) -> Result<(), AllocError>
    requires place { place < length answered.now }
    requires there { slice_get answered.now place ≡ Some a.now }
    ensures { OnOk result (out.new.items ≡ out.old.items
        ++ told.stays_with (take place answered.now) (drop (place + 1) answered.now) a.now) }
{
    let names = opened(alloc, &answered[..place], a)?;
    for name in names.iter() {
        out.push(stay(answered, place, a.tick, name))?;
    }
    Ok(())
}

/// All stays that the commands of a report make, in the order in which they are opened.
///
/// # Errors
///
/// Where memory is wanting.
pub fn stays_of(alloc: Global, answered: &[Answered]) -> Result<Vec<Stay>, AllocError>
    ensures { IfOk result (λ all. all.items ≡ told.stays answered.now) }
{
    let mut all = Vec::new(alloc);
    for place in 0..answered.len() {
        put_stays(alloc, &mut all, answered, place, &answered[place])?;
    }
    Ok(all)
}
