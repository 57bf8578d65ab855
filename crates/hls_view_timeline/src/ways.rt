// The ways down to a thread, in the order of ports.
ghost use Rattle.std.specs.Prelude.{◌≡◌, ◌≤◌, IfOk, OnOk, length};
ghost use Rattle.std.specs.List.{count_by};
ghost use Rattle.hls_report_text.specs.Content.{content_of};
ghost use Rattle.hls_report_text.specs.WellFormed.{IsWellFormed};
ghost use Rattle.hls_view_timeline.specs.Ways as told;

use hls_chron::{List, Name};
use hls_report_text::Report;
use hls_view_tale::{Label, Place, hierarchy_at};
use std::alloc::{AllocError, Global};

/// Whether a way comes before another: where they part first, from below upwards, it leaves by an earlier port.
fn comes_before(one: &[Label], other: &[Label]) -> bool
    ensures { result ≡ told.comes_before one.now other.now }
{
    let Some((label, above)) = one.split_last() else {
        return false;
    };
    let Some((next, beyond)) = other.split_last() else {
        return false;
    };
    label.port < next.port || (label.port == next.port && comes_before(above, beyond))
}

/// How many ways come before one.
fn before(ways: &[List<Label>], way: &[Label]) -> usize
    ensures within { result ≤ length ways.now }
    ensures count { result ≡ count_by (λ other. told.comes_before other way.now) ways.now }
{
    ways.iter()
        .filter(|other| comes_before(other.items(), way))
        .count()
}

fn put_way(ways: &mut Vec<List<Label>>, way: Vec<Label>) -> Result<(), AllocError>
    ensures { OnOk result (ways.new.items ≡ told.with_way ways.old.items way.items) }
{
    let at = before(ways, &way);
    ways.insert(at, List::of(way))?;
    Ok(())
}

fn has_name(name: &Name, place: &Place) -> bool
    ensures { result ≡ told.has_name name.now place.now }
{
    place.label.name == *name
}

/// The ways down to those of these places that have a name.
fn ways_among(alloc: Global, name: &Name, places: &[Place]) -> Result<Vec<List<Label>>, AllocError>
    ensures { IfOk result (λ ways. ways.items ≡ told.ways_among name.now places.now) }
{
    let mut ways = Vec::new(alloc);
    for place in places {
        if has_name(name, place) {
            put_way(&mut ways, place.labels(alloc)?)?;
        }
    }
    Ok(ways)
}

/// The ways down to a name at a tick: port by port, and for each port by those of the scheduler that it is on.
///
/// # Errors
/// Returns `AllocError` for want of memory.
pub(crate) fn ways_to(
    alloc: Global,
    report: &Report,
    tick: u32,
    name: &Name,
) -> Result<Vec<List<Label>>, AllocError>
    requires { IsWellFormed report.now }
    ensures { IfOk result (λ ways. ways.items ≡ told.ways_to (content_of report.now) tick name.now) }
{
    let hierarchy = hierarchy_at(alloc, report, tick)?;
    ways_among(alloc, name, &hierarchy.places)
}
