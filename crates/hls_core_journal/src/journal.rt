// A journal.
ghost use Rattle.std.specs.Prelude.{◌≡◌, ◌↔◌, ◌+◌, ◌-◌, ◌^◌, ◌<◌, ◌≤◌, [], ◌∷◌, ◌++◌, Some, true};
ghost use Rattle.std.specs.Prelude.{IfOk, length, slice_get};
ghost use Rattle.std.specs.Prelude.{option_copied, option_to_list, vec_capacity};
ghost use Rattle.hls_report_text.specs.Content.{path_names};
ghost use Rattle.hls_report_text.specs.WellFormed.{HasShort};
ghost use Rattle.hls_legal.specs.Commands.{is_done};
ghost use Rattle.hls_legal.specs.Moment.{new_name};
ghost use Rattle.hls_core_journal.specs.Kept.{naming};

use crate::runs::{Runs, put_tick};
use crate::ways::{insert, place_of, push};
use hls_chron::Name;
use hls_core_guesses::Guesses;
use hls_report_text::{Answer, Path};
use hls_scenario::{Command, Item};
use indexmap::IndexSet;
use std::alloc::{AllocError, Global};

/// Of how many nodes the place of the name is kept: of those with the first keys.
const NODES: usize = 1024;

/// What became of the first commands of a scenario and of the ticks that have passed. It has all the
/// room that the scenario needs: no call but the first and the last takes memory.
#[derive(Debug, Drop)]
pub struct Journal {
    pub(crate) ticks: u32,
    pub(crate) answers: Vec<Answer>,
    pub(crate) names: IndexSet<Name>,
    pub(crate) guesses: Guesses,
    pub(crate) runs: Runs,
}

/// The name that a command gives to a new node.
fn new_name(command: &Command) -> Option<Name>
    ensures { result ≡ new_name command.now }
{
    match command {
        Command::Load { name, .. } => Some(*name),
        Command::Thread { name, .. } => Some(*name),
        _ => None,
    }
}

/// How many commands give a name to a node, where they are done.
fn naming(items: &[Item]) -> usize
    ensures counted { result ≡ naming items.now }
    ensures few { result ≤ length items.now }
{
    let mut count = 0;
    for item in items {
        if new_name(&item.command).is_some() {
            count += 1;
        }
    }
    count
}

/// Whether a command was carried out.
fn is_done(answer: &Answer) -> bool
    ensures { result ≡ is_done answer.now }
{
    match answer {
        Answer::Done(_) => true,
        Answer::Refused(_) => false,
    }
}

impl Journal {
    ghost use Rattle.hls_core_journal.specs.Kept.{IsNew, MayNote, MayTick, AreWithin, has_name, IsNoted, AreTicked};

    /// A journal of nothing yet, with room for these commands and so many ticks.
    ///
    /// # Errors
    /// Returns `AllocError` for want of memory.
    pub fn open(alloc: Global, items: &[Item], horizon: u32) -> Result<Journal, AllocError>
        ensures { IfOk result (IsNew items.now horizon) }
    {
        let mut guesses = Guesses::new(alloc);
        guesses.reserve(NODES)?;
        Ok(Journal {
            ticks: 0,
            answers: Vec::with_capacity(alloc, items.len())?,
            names: IndexSet::with_capacity(alloc, naming(items))?,
            guesses,
            runs: Runs::with_capacity(alloc, horizon)?,
        })
    }

    /// How many ticks have passed.
    pub fn ticks(&self) -> u32
        ensures { result ≡ self.now.ticks }
    {
        self.ticks
    }

    /// The answer that was noted last.
    pub fn last(&self) -> Option<&Answer>
        ensures { option_copied result ≡ slice_get self.now.answers.items (length self.now.answers.items - 1) }
    {
        self.answers.last()
    }

    /// Takes the answer away that was noted last.
    pub fn take_last(&mut self) -> Option<Answer>
        ensures taken { self.old.answers.items ≡ self.new.answers.items ++ option_to_list result }
        ensures fewer { length self.new.answers.items ≡ length self.old.answers.items - 1 }
        ensures room { vec_capacity self.new.answers ≡ vec_capacity self.old.answers }
        ensures others { self.new ≡ record self.old { answers = self.new.answers } }
    {
        self.answers.pop()
    }

    /// Notes the answer to the next command. Where it gives a new node a name, `key` is likely to be that node's.
    pub fn note(&mut self, command: &Command, answer: Answer, key: usize)
        requires { MayNote command.now self.old }
        ensures { IsNoted command.now answer self.old self.new }
    {
        if is_done(&answer) {
            if let Some(name) = new_name(command) {
                let place = insert(&mut self.names, name);
                self.guesses.note(key, place);
            }
        }
        self.answers.push_reserved(answer);
    }

    /// Goes on along a path to a node with a name that was noted. The name is likely to have been noted with `key`.
    pub fn extend(&self, path: &mut Path, name: &Name, key: usize)
        requires known { has_name self.now name.now ≡ true }
        requires few { length self.now.names.keys ≤ 2 ^ 16 }
        requires short { path.old.len < 9 }
        ensures len { path.new.len ≡ path.old.len + 1 }
        ensures names { path_names self.now.names.keys path.new
            ≡ path_names self.now.names.keys path.old ++ name.now ∷ [] }
        ensures within { AreWithin (length self.now.names.keys) (Some path.old) →
            AreWithin (length self.now.names.keys) (Some path.new) }
    {
        match place_of(&self.names, self.guesses.at(key), name) {
            Some(place) => push(path, place as u16),
            None => unreachable!(),
        }
    }

    /// Notes that so many ticks pass, one or more, with one path, or idle.
    pub fn leap(&mut self, path: Option<Path>, ticks: u32)
        requires may { MayTick self.old }
        requires short { HasShort path }
        requires some { 0 < ticks }
        requires more { self.old.ticks + ticks < 2 ^ 32 }
        ensures { AreTicked ticks path self.old self.new }
    {
        put_tick(&self.names, &mut self.runs, self.ticks, path);
        self.runs.lengthen(self.ticks + (ticks - 1));
        self.ticks += ticks;
    }
}
