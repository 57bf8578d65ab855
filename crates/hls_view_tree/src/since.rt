// Since when the nodes of the hierarchy are where they are.
ghost use Rattle.std.specs.Prelude.{◌≡◌, ℕ, option_copied, slice_get};
ghost use Rattle.std.specs.Str.{bytes_eq};
ghost use Rattle.hls_report_text.specs.Content.{content_of};
ghost use Rattle.hls_view_tale.specs.Hierarchies.{IsHierarchy};
ghost use Rattle.hls_view_tree.specs.Stays as stays;

use hls_chron::Name;
use hls_report_text::{Answered, Report};
use hls_view_tale::{Hierarchy, Standing};

pub(crate) fn is_same(name: &Name, other: &Name) -> bool
    ensures { result ≡ bytes_eq name.now other.now }
{
    name == other
}

/// Since when the node of a name is where it is.
pub(crate) fn standing_of<'a>(all: &'a [Standing], name: &Name) -> Option<&'a Standing>
    ensures { option_copied result ≡ stays.standing_of all.now name.now }
{
    all.iter().find(|standing| is_same(&standing.name, name))
}

fn tick_of(answered: &[Answered], place: usize) -> u32
    ensures { result ≡ stays.tick_of (slice_get answered.now place) }
{
    match answered.get(place) {
        Some(a) => a.tick,
        None => 0,
    }
}

/// The first tick of the stay that the node of a name has in a hierarchy of the report.
pub fn since_of(report: &Report, hierarchy: &Hierarchy, name: &Name) -> u32
    ensures { (t : ℕ) → IsHierarchy (content_of report.now) t hierarchy.now →
        result ≡ stays.since_of (content_of report.now) t name.now }
{
    match standing_of(&hierarchy.standing, name) {
        Some(standing) => tick_of(report.answered.items(), standing.opened),
        None => 0,
    }
}
