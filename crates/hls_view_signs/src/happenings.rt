// What happens to whoever has a place.
ghost use Rattle.std.specs.Prelude.{◌≡◌, IfOk, OnOk, option_copied, slice_get};
ghost use Rattle.std.specs.Str.{bytes_eq};
ghost use Rattle.hls_report_text.specs.Content.{content_of};
ghost use Rattle.hls_report_text.specs.WellFormed.{IsWellFormed};
ghost use Rattle.hls_view_tree.specs.Stays.{standing_of};
ghost use Rattle.hls_view_lanes.specs.Leaves.{is_thread};
ghost use Rattle.hls_view_signs.specs.Happenings as told;
ghost use Rattle.hls_view_signs.specs.Inside.Nodes.{node_with, happens_at, happens_to_any};
ghost use Rattle.hls_view_signs.specs.Inside.Sources.{AreSources};

use crate::drops::{is_dropped, is_woken};
use crate::event::{Asked, Event, Node};
use crate::heard::heard_at;
use crate::sources::Sources;
use hls_audit_clauses::Sort;
use hls_chron::Name;
use hls_report_text::{Answered, Report};
use hls_view_tale::{Label, Standing};
use std::alloc::{AllocError, Global};

/// Whether the command at a place is there, and of a tick.
pub(crate) fn is_of(answered: &[Answered], place: usize, tick: u32) -> bool
    ensures { result ≡ told.is_of tick (slice_get answered.now place) }
{
    match answered.get(place) {
        Some(a) => a.tick == tick,
        None => false,
    }
}

fn is_thread(label: &Label) -> bool
    ensures { result ≡ is_thread label.now }
{
    match label.sort {
        Sort::Thread => true,
        Sort::Scheduler { .. } => false,
    }
}

/// Whether a node is woken in a tick.
fn has_woken(
    alloc: Global,
    report: &Report,
    sources: &mut Sources,
    tick: u32,
    node: &Node,
) -> Result<bool, AllocError>
    requires formed { IsWellFormed report.now }
    requires sources { AreSources report.now sources.old }
    ensures sources { OnOk result (AreSources report.now sources.new) }
    ensures is { IfOk result (λ is. is ≡ happens_at (content_of report.now) tick Event.Woken node.now) }
{
    if !is_thread(&node.label) {
        return Ok(false);
    }
    let name = node.label.name;
    let place = sources
        .known
        .place_of(alloc, report, &sources.lookup, &name)?;
    let at = heard_at(alloc, &mut sources.heard, report, node, place)?;
    Ok(is_woken(tick, &sources.heard[at].words))
}

/// Whether work of a node is dropped in a tick.
fn has_dropped(
    alloc: Global,
    report: &Report,
    sources: &mut Sources,
    tick: u32,
    node: &Node,
) -> Result<bool, AllocError>
    requires formed { IsWellFormed report.now }
    requires sources { AreSources report.now sources.old }
    ensures sources { OnOk result (AreSources report.now sources.new) }
    ensures is { IfOk result (λ is. is ≡ happens_at (content_of report.now) tick Event.Dropped node.now) }
{
    if !is_thread(&node.label) {
        return Ok(false);
    }
    let name = node.label.name;
    let place = sources
        .known
        .place_of(alloc, report, &sources.lookup, &name)?;
    let at = heard_at(alloc, &mut sources.heard, report, node, place)?;
    let served = &sources.known.ticks[place].served;
    Ok(is_dropped(served, tick, &sources.heard[at].words))
}

/// Whether what is asked happens to a node.
fn happens(
    alloc: Global,
    report: &Report,
    sources: &mut Sources,
    asked: Asked,
    node: &Node,
) -> Result<bool, AllocError>
    requires formed { IsWellFormed report.now }
    requires sources { AreSources report.now sources.old }
    ensures sources { OnOk result (AreSources report.now sources.new) }
    ensures is { IfOk result (λ is. is ≡ happens_at (content_of report.now) asked.tick asked.event node.now) }
{
    let answered = report.answered.items();
    match asked.event {
        Event::Begun => Ok(is_of(answered, node.standing.opened, asked.tick)),
        Event::Woken => has_woken(alloc, report, sources, asked.tick, node),
        Event::Dropped => has_dropped(alloc, report, sources, asked.tick, node),
    }
}

fn is_same_name(name: &Name, other: &Name) -> bool
    ensures { result ≡ bytes_eq name.now other.now }
{
    name == other
}

/// The node at a place, by who is there.
pub(crate) fn node_at(all: &[Standing], label: &Label) -> Option<Node>
    ensures { result ≡ node_with label.now (standing_of all.now label.now.name) }
{
    match standing_of(all, &label.name) {
        Some(standing) => Some(Node {
            label: *label,
            standing: *standing,
        }),
        None => None,
    }
}

fn standing_of<'a>(all: &'a [Standing], name: &Name) -> Option<&'a Standing>
    ensures { option_copied result ≡ standing_of all.now name.now }
{
    all.iter()
        .find(|standing| is_same_name(&standing.name, name))
}

/// Whether what is asked happens to a node, if there is one.
///
/// # Errors
/// Returns `AllocError` for want of memory.
pub(crate) fn happens_if(
    alloc: Global,
    report: &Report,
    sources: &mut Sources,
    asked: Asked,
    node: Option<Node>,
) -> Result<bool, AllocError>
    requires formed { IsWellFormed report.now }
    requires sources { AreSources report.now sources.old }
    ensures sources { OnOk result (AreSources report.now sources.new) }
    ensures is { IfOk result (λ is. is ≡ happens_to_any (content_of report.now) asked.tick asked.event node) }
{
    match node {
        Some(node) => happens(alloc, report, sources, asked, &node),
        None => Ok(false),
    }
}
