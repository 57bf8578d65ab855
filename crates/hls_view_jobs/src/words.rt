// The words on a thread.
ghost use Rattle.std.specs.Prelude.{◌≡◌, ◌+◌, ◌≤◌, ◌<◌, ◌++◌, ◌∷◌, [], Some, drop, IfOk, OnOk, length};
ghost use Rattle.hls_chron.specs.Ticks.{one_if};
ghost use Rattle.hls_legal.specs.Commands.{has_done, rouses};
ghost use Rattle.hls_view_jobs.specs.Words.{sort_of, word_of, is_end, is_wake, words_on, wakes_on, end_in};
ghost use Rattle.hls_view_jobs.specs.Words.{repeat_of, first, last_by, later};

use crate::job::{Sort, Word};
use hls_chron::Name;
use hls_report_text::{Answer, Answered};
use hls_scenario::Command;
use std::alloc::{AllocError, Global};

/// A periodic wake is for so many ticks in every so many.
#[derive(Clone, Copy, Debug, PartialEq, Eq)]
pub struct Repeat {
    pub period: u32,
    pub ticks: u32,
}

/// What a command says of the thread that it rouses.
pub(crate) fn sort_of(command: &Command) -> Sort
    ensures { result ≡ sort_of command.now }
{
    match command {
        Command::Wake { burst, .. } => Sort::Wakes { burst: *burst },
        Command::Block { .. } => Sort::Blocks,
        _ => Sort::Ends,
    }
}

fn repeat_of(command: &Command) -> Option<Repeat>
    ensures { result ≡ repeat_of command.now }
{
    match command {
        Command::Wake {
            every: Some(period),
            burst: Some(ticks),
            ..
        } => Some(Repeat {
            period: *period,
            ticks: *ticks,
        }),
        _ => None,
    }
}

impl Sort {
    /// Whether the thread ends.
    pub(crate) fn is_end(&self) -> bool
        ensures { result ≡ is_end self.now }
    {
        match self {
            Sort::Ends => true,
            Sort::Wakes { .. } | Sort::Blocks => false,
        }
    }

    /// Whether the thread is woken.
    pub(crate) fn is_wake(&self) -> bool
        ensures { result ≡ is_wake self.now }
    {
        match self {
            Sort::Wakes { .. } => true,
            Sort::Blocks | Sort::Ends => false,
        }
    }

    /// How many wakes it is, one or none.
    fn wakes(&self) -> usize
        ensures is { result ≡ one_if (is_wake self.now) }
        ensures few { result ≤ 1 }
    {
        match self {
            Sort::Wakes { .. } => 1,
            Sort::Blocks | Sort::Ends => 0,
        }
    }
}

/// Whether a command admits, wakes, blocks or ends the thread of a name.
fn rouses(command: &Command, thread: &Name) -> bool
    ensures { result ≡ rouses thread.now command.now }
{
    match command {
        Command::Thread { name, .. } => name == thread,
        Command::End { name } => name == thread,
        Command::Wake { name, .. } => name == thread,
        Command::Block { name } => name == thread,
        _ => false,
    }
}

/// Whether a command that was carried out does.
pub(crate) fn has_roused(a: &Answered, name: &Name) -> bool
    ensures { result ≡ has_done (rouses name.now) a.now }
{
    match &a.answer {
        Answer::Done(_) => rouses(&a.command, name),
        Answer::Refused(_) => false,
    }
}

/// The last tick that may have a release of the thread of a name, before these commands.
fn last_before(horizon: u32, after: &[Answered], name: &Name) -> u32
    ensures { result ≡ last_by horizon (first (words_on horizon name.now after.now)) }
{
    for a in after {
        if has_roused(a, name) {
            return a.tick;
        }
    }
    horizon.saturating_sub(1)
}

/// Puts the later releases of a wake in a tick, up to a last tick, behind all others.
fn put_again(words: &mut Vec<Word>, tick: u32, last: u32, repeat: &Repeat) -> Result<(), AllocError>
    ensures { OnOk result (words.new.items ≡ words.old.items ++ later tick last (Some repeat.now)) }
{
    if repeat.period == 0 {
        return Ok(());
    }
    let sort = Sort::Wakes {
        burst: Some(repeat.ticks),
    };
    let many = last.saturating_sub(tick) / repeat.period;
    let mut at = tick;
    for done in 0..many {
        at += repeat.period;
        words.push(Word { tick: at, sort })?;
    }
    Ok(())
}

/// Puts the later releases of a command, before those commands that come after it, behind all others.
///
/// # Errors
/// Returns `AllocError` for want of memory.
pub fn put_later(
    words: &mut Vec<Word>,
    horizon: u32,
    a: &Answered,
    after: &[Answered],
    name: &Name,
) -> Result<(), AllocError>
    ensures { OnOk result (words.new.items ≡ words.old.items
        ++ later a.now.tick (last_by horizon (first (words_on horizon name.now after.now))) (repeat_of a.now.command)) }
{
    if let Some(repeat) = repeat_of(&a.command) {
        let last = last_before(horizon, after, name);
        put_again(words, a.tick, last, &repeat)?;
    }
    Ok(())
}

/// The words on the thread of a name, of the commands from a place on, up to its end.
///
/// # Errors
/// Returns `AllocError` for want of memory.
pub fn words_on(
    alloc: Global,
    horizon: u32,
    answered: &[Answered],
    place: usize,
    name: &Name,
) -> Result<Vec<Word>, AllocError>
    requires { place ≤ length answered.now }
    ensures { IfOk result (λ words. words.items ≡ words_on horizon name.now (drop place answered.now)) }
{
    let mut words = Vec::new(alloc);
    for at in place..answered.len() {
        let a = &answered[at];
        if has_roused(a, name) {
            let sort = sort_of(&a.command);
            words.push(Word { tick: a.tick, sort })?;
            if sort.is_end() {
                return Ok(words);
            }
            put_later(&mut words, horizon, a, &answered[at + 1..], name)?;
        }
    }
    Ok(words)
}

/// How many of the commands from a place on wake the thread of a name, up to its end.
pub(crate) fn wakes_on(answered: &[Answered], place: usize, name: &Name) -> usize
    requires { place ≤ length answered.now }
    ensures { result ≡ wakes_on name.now (drop place answered.now) }
{
    let mut wakes = 0;
    for at in place..answered.len() {
        let a = &answered[at];
        if has_roused(a, name) {
            let sort = sort_of(&a.command);
            if sort.is_end() {
                return wakes;
            }
            wakes += sort.wakes();
        }
    }
    wakes
}
