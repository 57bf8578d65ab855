// Which stays have which rows.
ghost use Rattle.std.specs.Prelude.{◌≡◌, ◌-◌, IfOk, OnOk, length, option_copied, slice_get};
ghost use Rattle.std.specs.List.{list_any};
ghost use Rattle.std.specs.Str.{bytes_eq};
ghost use Rattle.hls_report_text.specs.Content.{content_of};
ghost use Rattle.hls_report_text.specs.WellFormed.{IsWellFormed};
ghost use Rattle.hls_view_lanes.specs.Leaves as leaves;
ghost use Rattle.hls_view_lanes.specs.Likeness.{is_same};
ghost use Rattle.hls_view_tights.specs.Tights as told;
ghost use Rattle.hls_view_tights.specs.Inside.Sightings as seen;

use crate::tights::Tight;
use hls_audit_clauses::Sort;
use hls_chron::{List, Name};
use hls_report_text::Report;
use hls_view_lanes::is_same;
use hls_view_margins::{Margin, Spare};
use hls_view_scale::Scale;
use hls_view_tale::{Hierarchy, Label, hierarchy_at};
use std::alloc::{AllocError, Global};

/// A stay that has a tick in the span: the ways down to its thread in the first of these, and its least spare.
#[derive(Drop)]
pub(crate) struct Sighting {
    pub(crate) ways: List<List<Label>>,
    pub(crate) tight: Tight,
}

fn is_thread(label: &Label) -> bool
    ensures { result ≡ leaves.is_thread label.now }
{
    match label.sort {
        Sort::Thread => true,
        Sort::Scheduler { .. } => false,
    }
}

/// The last label of a way; the processor has none.
fn last_label(way: &[Label]) -> Option<&Label>
    ensures { option_copied result ≡ slice_get way.now (length way.now - 1) }
{
    way.last()
}

/// Whether a way ends in a thread.
fn is_leaf(way: &[Label]) -> bool
    ensures { result ≡ leaves.is_leaf way.now }
{
    match last_label(way) {
        Some(label) => is_thread(label),
        None => false,
    }
}

impl Sighting {
    fn is_at(&self, row: &[Label]) -> bool
        ensures { result ≡ list_any (is_same row.now) self.now.ways }
    {
        self.ways
            .items()
            .iter()
            .any(|way| is_same(row, way.items()))
    }

    /// Whether the stay has a row, which ends in a thread.
    pub(crate) fn has(&self, row: &[Label]) -> bool
        ensures { result ≡ seen.has row.now self.now }
    {
        is_leaf(row) && self.is_at(row)
    }
}

fn is_same_name(name: &Name, other: &Name) -> bool
    ensures { result ≡ bytes_eq name.now other.now }
{
    name == other
}

/// The ways down to the places of a name.
fn ways_to(
    alloc: Global,
    hierarchy: &Hierarchy,
    name: &Name,
) -> Result<List<List<Label>>, AllocError>
    ensures { IfOk result (seen.AreWays name.now hierarchy.now.places.items) }
{
    let mut ways = Vec::new(alloc);
    for place in &hierarchy.places {
        if is_same_name(&place.label.name, name) {
            ways.push(List::of(place.labels(alloc)?))?;
        }
    }
    Ok(List::of(ways))
}

/// The least surplus and its part, if a part is judged and no window is over.
fn least_of(spare: &Spare) -> Option<Tight>
    ensures { result ≡ told.least_of spare.now }
{
    match spare {
        Spare::Least { part, surplus } => Some(Tight {
            surplus: *surplus,
            part: *part,
        }),
        Spare::Unjudged | Spare::Over => None,
    }
}

fn is_shown(scale: &Scale, margin: &Margin) -> bool
    ensures { result ≡ told.is_shown scale.now margin.now }
{
    margin.from <= scale.to && scale.from <= margin.to
}

/// Where a stay with this least spare is seen.
fn sighting_of(
    alloc: Global,
    report: &Report,
    scale: &Scale,
    margin: &Margin,
    tight: Tight,
) -> Result<Sighting, AllocError>
    requires { IsWellFormed report.now }
    ensures { IfOk result (seen.IsSighting (content_of report.now) scale.now margin.now tight) }
{
    let hierarchy = hierarchy_at(alloc, report, margin.from.max(scale.from))?;
    Ok(Sighting {
        ways: ways_to(alloc, &hierarchy, &margin.name)?,
        tight,
    })
}

/// Puts where a stay is seen behind all others, if it has a tick in the span and a least spare.
fn put_sighting(
    alloc: Global,
    report: &Report,
    scale: &Scale,
    margin: &Margin,
    sightings: &mut Vec<Sighting>,
) -> Result<(), AllocError>
    requires { IsWellFormed report.now }
    ensures { OnOk result (seen.IsPut (content_of report.now) scale.now margin.now sightings.old.items
        sightings.new.items) }
{
    if let Some(tight) = least_of(&margin.spare) {
        if is_shown(scale, margin) {
            sightings.push(sighting_of(alloc, report, scale, margin, tight)?)?;
        }
    }
    Ok(())
}

/// Where these stays are seen, of those that have a tick in the span and a least spare.
///
/// # Errors
/// Returns `AllocError` for want of memory.
pub(crate) fn sightings_of(
    alloc: Global,
    report: &Report,
    scale: &Scale,
    margins: &[Margin],
) -> Result<Vec<Sighting>, AllocError>
    requires { IsWellFormed report.now }
    ensures { IfOk result (λ all. seen.AreSightings (content_of report.now) scale.now margins.now all.items) }
{
    let mut sightings = Vec::new(alloc);
    for margin in margins {
        put_sighting(alloc, report, scale, margin, &mut sightings)?;
    }
    Ok(sightings)
}
