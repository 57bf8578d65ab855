// Who sits at a place.
ghost use Rattle.std.specs.Prelude.{◌≡◌, ◌++◌, OnOk, IfOk};
ghost use Rattle.hls_view_tale.specs.Places as places;

use crate::Label;
use crate::members::is_same;
use hls_audit_clauses::Member;
use hls_chron::{Name, Terms};
use hls_scenario::{Perch, Spot};
use std::alloc::{AllocError, Global};

/// Whether a seat is on the scheduler of a name, or at the processor where there is none.
fn is_at(above: &Option<Name>, spot: &Spot) -> bool
    ensures { result ≡ places.is_at above.now spot.now }
{
    match (above, spot) {
        (None, Spot::Cpu) => true,
        (Some(name), Spot::Under { sched, .. }) => is_same(sched, name),
        _ => false,
    }
}

fn label_of(member: &Member, port: usize, perch: &Perch) -> Label
    ensures { result ≡ places.label_of member.now port perch.now }
{
    let terms = match perch.spot {
        Spot::Cpu => Terms::Cpu,
        Spot::Under { terms, .. } => terms,
    };
    Label {
        name: member.name,
        sort: member.sort,
        port,
        terms,
        kept: perch.want,
    }
}

/// Appends the label of a seat, if it is there.
fn put_label(
    labels: &mut Vec<Label>,
    member: &Member,
    above: &Option<Name>,
    port: usize,
    perch: &Perch,
) -> Result<(), AllocError>
    ensures { OnOk result (labels.new.items
        ≡ labels.old.items ++ places.label_if member.now above.now port perch.now) }
{
    if is_at(above, &perch.spot) {
        labels.push(label_of(member, port, perch))?;
    }
    Ok(())
}

/// Appends the labels of the seats that a member has there.
fn put_labels(
    labels: &mut Vec<Label>,
    member: &Member,
    above: &Option<Name>,
) -> Result<(), AllocError>
    ensures { OnOk result (labels.new.items
        ≡ labels.old.items ++ places.labels_from member.now above.now 0 member.now.perches) }
{
    for (port, perch) in member.perches.items().iter().enumerate() {
        put_label(labels, member, above, port, perch)?;
    }
    Ok(())
}

/// The labels of those members that sit on the scheduler of a name, or at the processor where there is none.
///
/// # Errors
/// Returns `AllocError` for want of memory.
pub(crate) fn labels_on(
    alloc: Global,
    members: &[Member],
    above: &Option<Name>,
) -> Result<Vec<Label>, AllocError>
    ensures { IfOk result (λ labels. labels.items ≡ places.labels_on members.now above.now) }
{
    let mut labels = Vec::new(alloc);
    for member in members {
        put_labels(&mut labels, member, above)?;
    }
    Ok(labels)
}
