// The hierarchy at a tick.
ghost use Rattle.std.specs.Prelude.{◌≡◌, ◌++◌, [], IfOk, None, OnOk, length, option_copied};
ghost use Rattle.std.specs.List.{AllByRecursion};
ghost use Rattle.hls_guarantee.specs.Limits.{IsValid};
ghost use Rattle.hls_report_text.specs.Content.{content_of};
ghost use Rattle.hls_report_text.specs.WellFormed.{IsWellFormed};
ghost use Rattle.hls_view_tale.specs.declared.place.Place as placed;
ghost use Rattle.hls_view_tale.specs.Hierarchies as hierarchies;
ghost use Rattle.hls_view_tale.specs.Places.{below};

use crate::members::{member_of, new_member};
use crate::tale::Tale;
use crate::walking::places_below;
use crate::{Following, Place, Standing};
use hls_audit_clauses::Member;
use hls_report_text::Report;
use std::alloc::{AllocError, Global};

/// Who is there at a tick, by the beginning of their stays, and all places from the top down: each before those below
/// it, and those on one scheduler in the order of stays.
#[derive(Debug, Drop)]
pub struct Hierarchy {
    pub standing: Vec<Standing>,
    pub places: Vec<Place>,
}

fn put_member(
    alloc: Global,
    members: &mut Vec<Member>,
    member: Option<&Member>,
) -> Result<(), AllocError>
    ensures { OnOk result (members.new.items ≡ members.old.items ++ hierarchies.listed (option_copied member.entry)) }
{
    if let Some(member) = member {
        members.push(new_member(alloc, &member.name, member.sort, member.perches.items())?)?;
    }
    Ok(())
}

/// The members of a tree in the order of stays.
fn in_order(alloc: Global, tree: &[Member], all: &[Standing]) -> Result<Vec<Member>, AllocError>
    ensures { IfOk result (λ members. members.items ≡ hierarchies.in_order tree.now all.now) }
{
    let mut members = Vec::new(alloc);
    for standing in all {
        put_member(alloc, &mut members, member_of(tree, &standing.name))?;
    }
    Ok(members)
}

/// The hierarchy that commands leave.
pub(crate) fn hierarchy_of(alloc: Global, tale: &Tale) -> Result<Hierarchy, AllocError>
    ensures standing { IfOk result (λ h. h.standing.items ≡ tale.now.standing.items) }
    ensures places { IfOk result (λ h. h.places.items
        ≡ below (hierarchies.in_order tale.now.tree.items tale.now.standing.items) (length tale.now.tree.items)
        None []) }
{
    let standing = tale.standing.to_vec(alloc)?;
    let members = in_order(alloc, &tale.tree, &tale.standing)?;
    let places = places_below(alloc, &members, tale.tree.len(), &None)?;
    Ok(Hierarchy { standing, places })
}

/// The hierarchy at a tick of a report, once the commands up to it and in it were carried out.
///
/// # Errors
/// Returns `AllocError` where there is no memory for what is kept beside the report.
pub fn hierarchy_at(alloc: Global, report: &Report, tick: u32) -> Result<Hierarchy, AllocError>
    requires { IsWellFormed report.now }
    ensures is { IfOk result (hierarchies.IsHierarchy (content_of report.now) tick) }
    ensures valid { IfOk result (λ h. AllByRecursion (λ (p : placed.Place). IsValid p.label.kept) h.places.items) }
{
    let mut following = Following::new(alloc);
    following.go_to(alloc, report, tick)?;
    Ok(following.hierarchy)
}
