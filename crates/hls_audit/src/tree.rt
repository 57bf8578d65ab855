// The plain tree of names that the commands of a report leave.
ghost use Rattle.std.specs.Prelude.{◌≡◌, List, [], ◌∷◌, ◌++◌, IfOk, OnOk, option_copied};
ghost use Rattle.std.specs.Str.{bytes_eq};
ghost use Rattle.hls_audit_clauses.specs.Names as names;
ghost use Rattle.hls_audit.specs.Inside.Known.{IsIndex};
ghost use Rattle.hls_audit.specs.Inside.Members.{member};

use crate::known::Known;
use hls_audit_clauses::{Member, Sort};
use hls_chron::{List, Name};
use hls_report_text::{Answer, Answered};
use hls_scenario::{Command, Perch};
use std::alloc::{AllocError, Global};

/// Who has a name, by the taking of their seats.
#[derive(Drop)]
pub(crate) struct Tree {
    pub(crate) members: Vec<Member>,
    known: Known,
    ghost index: { IsIndex known members.items },
}

impl Tree {
    /// Nobody has a name. Takes no memory.
    pub(crate) fn new(alloc: Global) -> Tree
        ensures { result.members.items ≡ [] }
    {
        Tree {
            members: Vec::new(alloc),
            known: Known::new(alloc),
        }
    }

    /// Who has a name.
    pub(crate) fn member(&self, name: &Name) -> Option<&Member>
        ensures { option_copied result ≡ names.member_of self.now.members.items name.now }
    {
        self.known.find(name)
    }

    /// What a name stands for.
    pub(crate) fn sort(&self, name: &Name) -> Option<Sort>
        ensures { result ≡ names.sort_of (names.member_of self.now.members.items name.now) }
    {
        match self.member(name) {
            Some(member) => Some(member.sort),
            None => None,
        }
    }

    /// The seats of whoever has a name.
    pub(crate) fn perches(&self, name: &Name) -> &[Perch]
        ensures { result.now ≡ names.perches_of (names.member_of self.now.members.items name.now) }
    {
        match self.member(name) {
            Some(member) => member.perches.items(),
            None => &[],
        }
    }

    /// Follows a command of the report, which changes the tree where it was carried out.
    ///
    /// # Errors
    /// Returns `AllocError` for want of memory.
    pub(crate) fn follow(&mut self, alloc: Global, a: &Answered) -> Result<(), AllocError>
        ensures { OnOk result (self.new.members.items ≡ names.after_answer self.old.members.items a.now) }
    {
        match &a.answer {
            Answer::Done(_) => self.carry_out(alloc, &a.command),
            Answer::Refused(_) => Ok(()),
        }
    }

    fn carry_out(&mut self, alloc: Global, command: &Command) -> Result<(), AllocError>
        ensures { OnOk result (self.new.members.items ≡ names.after self.old.members.items command.now) }
    {
        match command {
            Command::Load {
                name,
                config,
                perches,
            } => self.add(
                alloc,
                name,
                Sort::Scheduler { config: *config },
                perches.items(),
            ),
            Command::Thread { name, perch } => self.add(alloc, name, Sort::Thread, &[*perch]),
            Command::End { name } => {
                self.remove(name);
                Ok(())
            }
            Command::Unload { name } => {
                self.remove(name);
                Ok(())
            }
            Command::Move { name, perch } => self.reseat(alloc, name, perch),
            Command::Wake { .. } => Ok(()),
            Command::Block { .. } => Ok(()),
        }
    }

    /// Gives a name to who takes these seats last.
    fn add(
        &mut self,
        alloc: Global,
        name: &Name,
        sort: Sort,
        perches: &[Perch],
    ) -> Result<(), AllocError>
        ensures { OnOk result (self.new.members.items
            ≡ self.old.members.items ++ member name.now sort perches.now ∷ []) }
    {
        let first = new_member(alloc, name, sort, perches)?;
        self.known.reserve()?;
        self.members.push(new_member(alloc, name, sort, perches)?)?;
        if !self.known.has(name) {
            self.known.insert(*name, first);
        }
        Ok(())
    }

    fn remove(&mut self, name: &Name)
        ensures { self.new.members.items ≡ names.without name.now self.old.members.items }
    {
        self.members.retain(|member| !has_name(name, member));
        self.known.remove(name);
    }

    /// Seats whoever has a name anew, behind all others.
    fn reseat(&mut self, alloc: Global, name: &Name, perch: &Perch) -> Result<(), AllocError>
        ensures { OnOk result (self.new.members.items ≡ names.with_moved self.old.members.items perch.now
            (names.member_of self.old.members.items name.now)) }
    {
        match self.sort(name) {
            Some(sort) => {
                self.remove(name);
                self.add(alloc, name, sort, &[*perch])
            }
            None => Ok(()),
        }
    }
}

/// Whether two names are the same.
pub(crate) fn is_same(name: &Name, other: &Name) -> bool
    ensures { result ≡ bytes_eq name.now other.now }
{
    name == other
}

fn new_member(
    alloc: Global,
    name: &Name,
    sort: Sort,
    perches: &[Perch],
) -> Result<Member, AllocError>
    ensures { IfOk result (λ m. m ≡ member name.now sort perches.now) }
{
    let perches = List::of(perches.to_vec(alloc)?);
    Ok(Member {
        name: *name,
        sort,
        perches,
    })
}

fn has_name(name: &Name, member: &Member) -> bool
    ensures { result ≡ names.has_name name.now member.now }
{
    is_same(&member.name, name)
}
