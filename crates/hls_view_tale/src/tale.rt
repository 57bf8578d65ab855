// What the commands so far leave.
ghost use Rattle.std.specs.Prelude.{◌≡◌, ◌++◌, ◌+◌, ◌<◌, ◌∷◌, [], List, IfOk, OnOk, flat_map, map, length};
ghost use Rattle.hls_report_text.specs.declared.report.Answered as report;
ghost use Rattle.hls_view_tale.specs.Standings as standings;
ghost use Rattle.hls_view_tale.specs.Inside.Told.{IsTold, Does, threads_after};

use crate::Standing;
use crate::members::{carry_out, is_same};
use crate::moving::{is_among, moved_with};
use hls_audit_clauses::Member;
use hls_chron::Name;
use hls_report_text::{Answer, Answered};
use hls_scenario::Command;
use std::alloc::{AllocError, Global};

/// Who is there: by the taking of their seats, the threads by their admission, and by the beginning of their stays.
#[derive(Drop)]
pub(crate) struct Tale {
    pub(crate) tree: Vec<Member>,
    pub(crate) threads: Vec<Name>,
    pub(crate) standing: Vec<Standing>,
}

fn put_reopened(
    new: &mut Vec<Standing>,
    place: usize,
    name: &Name,
    all: &[Standing],
) -> Result<(), AllocError>
    ensures { OnOk result (new.new.items
        ≡ new.old.items ++ map (standings.reopened place) (standings.those_of name.now all.now)) }
{
    for standing in all {
        if is_same(&standing.name, name) {
            new.push(Standing {
                name: standing.name,
                born: standing.born,
                opened: place,
            })?;
        }
    }
    Ok(())
}

/// The new stays of these names.
fn reopened(
    alloc: Global,
    place: usize,
    names: &[Name],
    all: &[Standing],
) -> Result<Vec<Standing>, AllocError>
    ensures { IfOk result (λ new. new.items
        ≡ flat_map (λ name. map (standings.reopened place) (standings.those_of name all.now)) names.now) }
{
    let mut new = Vec::new(alloc);
    for name in names {
        put_reopened(&mut new, place, name, all)?;
    }
    Ok(new)
}

fn is_any_of(names: &[Name], standing: &Standing) -> bool
    ensures { result ≡ standings.is_among names.now standing.now.name }
{
    is_among(names, &standing.name)
}

fn end_all(all: &mut Vec<Standing>, names: &[Name])
    ensures { all.new.items ≡ standings.those_but names.now all.old.items }
{
    all.retain(|standing| !is_any_of(names, standing));
}

fn reopen_all(
    alloc: Global,
    place: usize,
    names: &[Name],
    all: &mut Vec<Standing>,
) -> Result<(), AllocError>
    ensures { OnOk result (all.new.items ≡ standings.with_reopened place names.now all.old.items) }
{
    let new = reopened(alloc, place, names, all)?;
    end_all(all, names);
    for standing in &new {
        all.push(*standing)?;
    }
    Ok(())
}

fn begin(all: &mut Vec<Standing>, name: &Name, place: usize) -> Result<(), AllocError>
    ensures { OnOk result (all.new.items ≡ all.old.items ++ standings.begun name.now place ∷ []) }
{
    all.push(Standing {
        name: *name,
        born: place,
        opened: place,
    })?;
    Ok(())
}

/// What a command makes of the threads that are there.
fn note_threads(threads: &mut Vec<Name>, command: &Command) -> Result<(), AllocError>
    ensures { OnOk result (threads.new.items ≡ threads_after threads.old.items command.now) }
{
    match command {
        Command::Thread { name, .. } => {
            threads.push(*name)?;
            Ok(())
        }
        Command::End { name } => {
            threads.retain(|other| !is_same(name, other));
            Ok(())
        }
        _ => Ok(()),
    }
}

impl Tale {
    /// No command came yet.
    pub(crate) fn new(alloc: Global) -> Tale
        ensures { (all : List report.Answered) → IsTold result all 0 }
    {
        Tale {
            tree: Vec::new(alloc),
            threads: Vec::new(alloc),
            standing: Vec::new(alloc),
        }
    }

    /// Begins and ends stays as the command at a place does.
    fn note_standing(
        &mut self,
        alloc: Global,
        place: usize,
        command: &Command,
    ) -> Result<(), AllocError>
        ensures tree { self.new.tree ≡ self.old.tree }
        ensures threads { self.new.threads ≡ self.old.threads }
        ensures standing { OnOk result (self.new.standing.items
            ≡ standings.standing_after self.old.tree.items self.old.threads.items place command.now
            self.old.standing.items) }
    {
        match command {
            Command::Load { name, .. } => begin(&mut self.standing, name, place),
            Command::Thread { name, .. } => begin(&mut self.standing, name, place),
            Command::End { name } => {
                end_all(&mut self.standing, &[*name]);
                Ok(())
            }
            Command::Unload { name } => {
                end_all(&mut self.standing, &[*name]);
                Ok(())
            }
            Command::Move { name, .. } => {
                let moved = moved_with(alloc, &self.tree, &self.threads, name)?;
                reopen_all(alloc, place, &moved, &mut self.standing)
            }
            Command::Wake { .. } => Ok(()),
            Command::Block { .. } => Ok(()),
        }
    }

    fn carry_out(
        &mut self,
        alloc: Global,
        place: usize,
        command: &Command,
    ) -> Result<(), AllocError>
        ensures { OnOk result (Does self.old self.new place command.now) }
    {
        self.note_standing(alloc, place, command)?;
        note_threads(&mut self.threads, command)?;
        carry_out(alloc, &mut self.tree, command)
    }

    /// Follows the command at a place, behind all before it.
    ///
    /// # Errors
    /// Returns `AllocError` for want of memory.
    pub(crate) fn follow(
        &mut self,
        alloc: Global,
        answered: &[Answered],
        place: usize,
    ) -> Result<(), AllocError>
        requires place { place < length answered.now }
        requires told { IsTold self.old answered.now place }
        ensures { OnOk result (IsTold self.new answered.now (place + 1)) }
    {
        let a = &answered[place];
        match &a.answer {
            Answer::Done(_) => self.carry_out(alloc, place, &a.command),
            Answer::Refused(_) => Ok(()),
        }
    }
}
