// What a tree of names does not allow.
ghost use Rattle.std.specs.Prelude.{◌≡◌, ◌||◌, ◌&&◌, not, IfOk};
ghost use Rattle.std.specs.List.{list_any};
ghost use Rattle.std.specs.Str.{bytes_eq};
ghost use Rattle.hls_legal.specs.Under as under;
ghost use Rattle.hls_audit_clauses.specs.Names as names;
ghost use Rattle.hls_audit_clauses.specs.Misplaced as clause;

use crate::tree::{Tree, is_same};
use hls_audit_clauses::{Member, Sort};
use hls_chron::{Config, Name};
use hls_scenario::{Command, Perch, Spot};
use std::alloc::{AllocError, Global};

impl Tree {
    /// Whether a command cannot be carried out.
    ///
    /// # Errors
    /// Returns `AllocError` for want of memory.
    pub(crate) fn is_misplaced(&self, alloc: Global, command: &Command) -> Result<bool, AllocError>
        ensures { IfOk result (λ misplaced. misplaced ≡ clause.is_misplaced self.now.members.items command.now) }
    {
        match command {
            Command::Load { name, perches, .. } => {
                Ok(self.is_there(name) || self.has_wrong_perch(command, perches.items()))
            }
            Command::Thread { name, perch } => {
                Ok(self.is_there(name) || self.is_wrong_spot(command, &perch.spot))
            }
            Command::Move { name, perch } => self.is_unmovable(alloc, command, name, &perch.spot),
            Command::Unload { name } => Ok(!self.is_scheduler(name) || self.has_seats_on(name)),
            Command::End { name } => Ok(!self.is_thread(name)),
            Command::Wake { name, .. } => Ok(!self.is_thread(name)),
            Command::Block { name } => Ok(!self.is_thread(name)),
        }
    }

    /// Whether a command cannot move a name to a place.
    fn is_unmovable(
        &self,
        alloc: Global,
        command: &Command,
        name: &Name,
        spot: &Spot,
    ) -> Result<bool, AllocError>
        ensures { IfOk result (λ unmovable. unmovable ≡ (not (names.is_there self.now.members.items name.now)
            || names.is_join self.now.members.items name.now
            || (names.is_scheduler self.now.members.items name.now
            && under.is_on (names.is_under self.now.members.items name.now) spot.now)
            || clause.is_wrong_spot self.now.members.items command.now spot.now)) }
    {
        if !self.is_there(name) || self.is_join(name) || self.closes_cycle(alloc, name, spot)? {
            return Ok(true);
        }
        Ok(self.is_wrong_spot(command, spot))
    }

    fn is_there(&self, name: &Name) -> bool
        ensures { result ≡ names.is_there self.now.members.items name.now }
    {
        self.member(name).is_some()
    }

    pub(crate) fn is_scheduler(&self, name: &Name) -> bool
        ensures { result ≡ names.is_scheduler self.now.members.items name.now }
    {
        match self.sort(name) {
            Some(Sort::Scheduler { .. }) => true,
            _ => false,
        }
    }

    pub(crate) fn is_thread(&self, name: &Name) -> bool
        ensures { result ≡ names.is_thread self.now.members.items name.now }
    {
        match self.sort(name) {
            Some(Sort::Thread) => true,
            _ => false,
        }
    }

    fn is_join(&self, name: &Name) -> bool
        ensures { result ≡ names.is_join self.now.members.items name.now }
    {
        match self.sort(name) {
            Some(
                Sort::Scheduler {
                    config: Config::Join { .. },
                },
            ) => true,
            _ => false,
        }
    }

    /// Whether somebody sits on the scheduler of a name.
    fn has_seats_on(&self, name: &Name) -> bool
        ensures { result ≡ list_any (names.sits_on name.now) self.now.members.items }
    {
        self.members.iter().any(|member| sits_on(name, member))
    }

    /// Whether a command cannot take one of these seats.
    fn has_wrong_perch(&self, command: &Command, perches: &[Perch]) -> bool
        ensures { result ≡ list_any (λ (perch : Perch).
            clause.is_wrong_spot self.now.members.items command.now perch.spot) perches.now }
    {
        perches
            .iter()
            .any(|perch| self.is_wrong_spot(command, &perch.spot))
    }

    fn is_wrong_spot(&self, command: &Command, spot: &Spot) -> bool
        ensures { result ≡ clause.is_wrong_spot self.now.members.items command.now spot.now }
    {
        match spot {
            Spot::Cpu => self.places_thread(command) || self.has_root(),
            Spot::Under { sched, .. } => !self.is_scheduler(sched),
        }
    }

    fn places_thread(&self, command: &Command) -> bool
        ensures { result ≡ clause.places_thread self.now.members.items command.now }
    {
        match command {
            Command::Thread { .. } => true,
            Command::Move { name, .. } => self.is_thread(name),
            _ => false,
        }
    }

    /// Whether somebody sits at the processor.
    fn has_root(&self) -> bool
        ensures { result ≡ list_any names.sits_at_cpu self.now.members.items }
    {
        self.members.iter().any(|member| sits_at_cpu(member))
    }
}

/// Whether a member sits on the scheduler of a name.
pub(crate) fn sits_on(name: &Name, member: &Member) -> bool
    ensures { result ≡ names.sits_on name.now member.now }
{
    member
        .perches
        .items()
        .iter()
        .any(|perch| is_on(name, &perch.spot))
}

fn is_on(name: &Name, spot: &Spot) -> bool
    ensures { result ≡ under.is_on (bytes_eq name.now) spot.now }
{
    match spot {
        Spot::Cpu => false,
        Spot::Under { sched, .. } => is_same(name, sched),
    }
}

/// Whether a member sits at the processor.
pub(crate) fn sits_at_cpu(member: &Member) -> bool
    ensures { result ≡ names.sits_at_cpu member.now }
{
    member
        .perches
        .items()
        .iter()
        .any(|perch| is_cpu(&perch.spot))
}

fn is_cpu(spot: &Spot) -> bool
    ensures { result ≡ names.is_cpu spot.now }
{
    match spot {
        Spot::Cpu => true,
        Spot::Under { .. } => false,
    }
}
