// The ways down to places.
ghost use Rattle.std.specs.Prelude.{◌≡◌, ◌≤◌, IfOk, OnOk, map, filter, length};
ghost use Rattle.hls_view_tale.specs.Places.{labels_of};
ghost use Rattle.hls_view_lanes.specs.Rows as told;

use hls_chron::{List, Name};
use hls_view_tale::{Hierarchy, Label, Place};
use std::alloc::{AllocError, Global};

/// The ways down to these places.
///
/// # Errors
/// Returns `AllocError` for want of memory.
pub(crate) fn ways_of(alloc: Global, places: &[Place]) -> Result<Vec<List<Label>>, AllocError>
    ensures { IfOk result (λ ways. ways.items ≡ map labels_of places.now) }
{
    let mut ways = Vec::new(alloc);
    for place in places {
        ways.push(List::of(place.labels(alloc)?))?;
    }
    Ok(ways)
}

/// By which ports a way leads, from its end upwards.
fn ports_up(alloc: Global, way: &[Label]) -> Result<Vec<usize>, AllocError>
    ensures { IfOk result (λ ports. ports.items ≡ told.ports_up way.now) }
{
    let mut ports = Vec::with_capacity(alloc, way.len())?;
    for label in way {
        ports.push(label.port)?;
    }
    ports.reverse();
    Ok(ports)
}

/// Whether a way comes before another to the same node.
fn comes_before(alloc: Global, way: &[Label], other: &[Label]) -> Result<bool, AllocError>
    ensures { IfOk result (λ before. before ≡ told.comes_before way.now other.now) }
{
    let ports = ports_up(alloc, way)?;
    let others = ports_up(alloc, other)?;
    Ok(ports.cmp(&others).is_lt())
}

/// How many of these ways come before another.
fn count_before(alloc: Global, ways: &[List<Label>], way: &[Label]) -> Result<usize, AllocError>
    ensures count { IfOk result (λ count. count
        ≡ length (filter (λ other. told.comes_before other way.now) ways.now)) }
    ensures within { IfOk result (λ count. count ≤ length ways.now) }
{
    let mut count = 0;
    for other in ways {
        if comes_before(alloc, other.items(), way)? {
            count += 1;
        }
    }
    Ok(count)
}

/// Puts a way behind those that come before it.
fn put_way(alloc: Global, ways: &mut Vec<List<Label>>, way: Vec<Label>) -> Result<(), AllocError>
    ensures { OnOk result (ways.new.items ≡ told.with_way ways.old.items way.items) }
{
    let at = count_before(alloc, ways, &way)?;
    ways.insert(at, List::of(way))?;
    Ok(())
}

/// The ways to one who is there, port by port.
fn ways_to(alloc: Global, places: &[Place], name: &Name) -> Result<Vec<List<Label>>, AllocError>
    ensures { IfOk result (λ ways. ways.items ≡ told.ways_to places.now name.now) }
{
    let mut ways = Vec::new(alloc);
    for place in places {
        if place.label.name == *name {
            put_way(alloc, &mut ways, place.labels(alloc)?)?;
        }
    }
    Ok(ways)
}

/// The ways of a hierarchy in the order of stays.
///
/// # Errors
/// Returns `AllocError` for want of memory.
pub(crate) fn ways_by_stays(
    alloc: Global,
    hierarchy: &Hierarchy,
) -> Result<Vec<List<Label>>, AllocError>
    ensures { IfOk result (λ ways.
        ways.items ≡ told.by_stays hierarchy.now.standing.items hierarchy.now.places.items) }
{
    let mut all = Vec::new(alloc);
    for standing in &hierarchy.standing {
        let mut ways = ways_to(alloc, &hierarchy.places, &standing.name)?;
        all.append(&mut ways)?;
    }
    Ok(all)
}
