// Whose stays a move opens.
ghost use Rattle.std.specs.Prelude.{◌≡◌, ◌++◌, ◌∷◌, [], IfOk, OnOk, filter, fold, map};
ghost use Rattle.std.specs.List.{list_any};
ghost use Rattle.std.specs.Str.{bytes_eq};
ghost use Rattle.hls_report_text.specs.WellFormed.{with_name};
ghost use Rattle.hls_audit_clauses.specs.Names as clauses;
ghost use Rattle.hls_view_tale.specs.Standings as standings;
ghost use Rattle.hls_view_tale.specs.declared.place.Place as found;

use crate::Place;
use crate::members::{is_same, is_scheduler};
use crate::walking::places_below;
use hls_audit_clauses::Member;
use hls_chron::Name;
use std::alloc::{AllocError, Global};

/// Whether a name is among others.
pub(crate) fn is_among(names: &[Name], name: &Name) -> bool
    ensures { result ≡ standings.is_among names.now name.now }
{
    names.iter().any(|other| is_same(name, other))
}

fn put_new(known: &mut Vec<Name>, name: &Name) -> Result<(), AllocError>
    ensures { OnOk result (known.new.items ≡ with_name known.old.items name.now) }
{
    if !is_among(known, name) {
        known.push(*name)?;
    }
    Ok(())
}

/// Each name where it stands first.
///
/// # Errors
/// Returns `AllocError` for want of memory.
pub fn firsts(alloc: Global, names: &[Name]) -> Result<Vec<Name>, AllocError>
    ensures { IfOk result (λ firsts. firsts.items ≡ standings.firsts names.now) }
{
    let mut known = Vec::new(alloc);
    for name in names {
        put_new(&mut known, name)?;
    }
    Ok(known)
}

fn put_names(names: &mut Vec<Name>, places: &[Place]) -> Result<(), AllocError>
    ensures { OnOk result (names.new.items ≡ names.old.items ++ map (λ (p : found.Place). p.label.name) places.now) }
{
    for place in places {
        names.push(place.label.name)?;
    }
    Ok(())
}

/// A name and those below it, as the ways down from it meet them.
fn met_below(alloc: Global, tree: &[Member], name: &Name) -> Result<Vec<Name>, AllocError>
    ensures { IfOk result (λ met. met.items ≡ standings.met_below tree.now name.now) }
{
    let mut met = Vec::new(alloc);
    met.push(*name)?;
    let places = places_below(alloc, tree, tree.len(), &Some(*name))?;
    put_names(&mut met, &places)?;
    Ok(met)
}

fn put_schedulers(moved: &mut Vec<Name>, tree: &[Member], names: &[Name]) -> Result<(), AllocError>
    ensures { OnOk result (moved.new.items ≡ moved.old.items ++ filter (clauses.is_scheduler tree.now) names.now) }
{
    for name in names {
        if is_scheduler(tree, name) {
            moved.push(*name)?;
        }
    }
    Ok(())
}

fn put_threads(moved: &mut Vec<Name>, met: &[Name], threads: &[Name]) -> Result<(), AllocError>
    ensures { OnOk result (moved.new.items
        ≡ moved.old.items ++ filter (standings.is_among met.now) threads.now) }
{
    for name in threads {
        if is_among(met, name) {
            moved.push(*name)?;
        }
    }
    Ok(())
}

/// Whose stays a move of a name opens, in their order: schedulers as they are met, then threads as they were admitted.
///
/// # Errors
/// Returns `AllocError` for want of memory.
pub(crate) fn moved_with(
    alloc: Global,
    tree: &[Member],
    threads: &[Name],
    name: &Name,
) -> Result<Vec<Name>, AllocError>
    ensures { IfOk result (λ moved. moved.items ≡ standings.moved_with tree.now threads.now name.now) }
{
    let met = met_below(alloc, tree, name)?;
    let once = firsts(alloc, &met)?;
    let mut moved = Vec::new(alloc);
    put_schedulers(&mut moved, tree, &once)?;
    put_threads(&mut moved, &met, threads)?;
    Ok(moved)
}
