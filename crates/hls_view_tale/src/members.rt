// The plain tree of names that commands leave, as the list of its members.
ghost use Rattle.std.specs.Prelude.{◌≡◌, ◌∷◌, ◌++◌, [], IfOk, OnOk, option_copied};
ghost use Rattle.std.specs.Str.{bytes_eq};
ghost use Rattle.hls_audit_clauses.specs.Names as clauses;
ghost use Rattle.hls_view_tale.specs.Inside.Members.{member};

use hls_audit_clauses::{Member, Sort};
use hls_chron::{List, Name};
use hls_scenario::{Command, Perch};
use std::alloc::{AllocError, Global};

/// Whether two names are the same.
pub(crate) fn is_same(name: &Name, other: &Name) -> bool
    ensures { result ≡ bytes_eq name.now other.now }
{
    name == other
}

fn has_name(name: &Name, member: &Member) -> bool
    ensures { result ≡ clauses.has_name name.now member.now }
{
    is_same(&member.name, name)
}

/// Who has a name.
pub(crate) fn member_of<'a>(members: &'a [Member], name: &Name) -> Option<&'a Member>
    ensures { option_copied result ≡ clauses.member_of members.now name.now }
{
    members.iter().find(|member| has_name(name, member))
}

fn sort_of(members: &[Member], name: &Name) -> Option<Sort>
    ensures { result ≡ clauses.sort_of (clauses.member_of members.now name.now) }
{
    match member_of(members, name) {
        Some(member) => Some(member.sort),
        None => None,
    }
}

/// Whether a name is a scheduler's.
pub(crate) fn is_scheduler(members: &[Member], name: &Name) -> bool
    ensures { result ≡ clauses.is_scheduler members.now name.now }
{
    match sort_of(members, name) {
        Some(Sort::Scheduler { .. }) => true,
        _ => false,
    }
}

/// Whoever has this name and sort, and these seats.
pub(crate) fn new_member(
    alloc: Global,
    name: &Name,
    sort: Sort,
    perches: &[Perch],
) -> Result<Member, AllocError>
    ensures { IfOk result (λ m. m ≡ member name.now sort perches.now) }
{
    let perches = List::of(perches.to_vec(alloc)?);
    Ok(Member {
        name: *name,
        sort,
        perches,
    })
}

fn add(
    alloc: Global,
    members: &mut Vec<Member>,
    name: &Name,
    sort: Sort,
    perches: &[Perch],
) -> Result<(), AllocError>
    ensures { OnOk result (members.new.items ≡ members.old.items ++ member name.now sort perches.now ∷ []) }
{
    members.push(new_member(alloc, name, sort, perches)?)?;
    Ok(())
}

fn remove(members: &mut Vec<Member>, name: &Name)
    ensures { members.new.items ≡ clauses.without name.now members.old.items }
{
    members.retain(|member| !has_name(name, member));
}

/// Seats whoever has a name anew, behind all others.
fn reseat(
    alloc: Global,
    members: &mut Vec<Member>,
    name: &Name,
    perch: &Perch,
) -> Result<(), AllocError>
    ensures { OnOk result (members.new.items
        ≡ clauses.with_moved members.old.items perch.now (clauses.member_of members.old.items name.now)) }
{
    match sort_of(members, name) {
        Some(sort) => {
            remove(members, name);
            add(alloc, members, name, sort, &[*perch])
        }
        None => Ok(()),
    }
}

/// Carries out a command.
///
/// # Errors
/// Returns `AllocError` for want of memory.
pub(crate) fn carry_out(
    alloc: Global,
    members: &mut Vec<Member>,
    command: &Command,
) -> Result<(), AllocError>
    ensures { OnOk result (members.new.items ≡ clauses.after members.old.items command.now) }
{
    match command {
        Command::Load {
            name,
            config,
            perches,
        } => {
            let sort = Sort::Scheduler { config: *config };
            add(alloc, members, name, sort, perches.items())
        }
        Command::Thread { name, perch } => add(alloc, members, name, Sort::Thread, &[*perch]),
        Command::End { name } => {
            remove(members, name);
            Ok(())
        }
        Command::Unload { name } => {
            remove(members, name);
            Ok(())
        }
        Command::Move { name, perch } => reseat(alloc, members, name, perch),
        Command::Wake { .. } => Ok(()),
        Command::Block { .. } => Ok(()),
    }
}
