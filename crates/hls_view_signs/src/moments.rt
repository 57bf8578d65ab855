// What happens in each tick in which something may.
ghost use Rattle.std.specs.Prelude.{◌≡◌, IfOk, OnOk, true};
ghost use Rattle.std.specs.List.{list_any};
ghost use Rattle.hls_report_text.specs.Content.{content_of};
ghost use Rattle.hls_report_text.specs.WellFormed.{IsWellFormed};
ghost use Rattle.hls_view_tale.specs.Hierarchies.{IsHierarchy};
ghost use Rattle.hls_view_tree.specs.Stays.{standing_of};
ghost use Rattle.hls_view_signs.specs.Inside.Notes.{AreInOrder};
ghost use Rattle.hls_view_signs.specs.Inside.Scenes as scenes;
ghost use Rattle.hls_view_signs.specs.Inside.Moments as told;
ghost use Rattle.hls_view_signs.specs.Inside.Sources.{AreSources};

use crate::event::{Asked, Event, Node};
use crate::happenings::{happens_if, is_of, node_at};
use crate::notes::{Note, notes_of};
use crate::roused::{is_roused, roused_in};
use crate::sources::Sources;
use hls_chron::{List, Name};
use hls_report_text::{Answered, Report};
use hls_view_lanes::is_same;
use hls_view_scale::Scale;
use hls_view_tale::{Following, Hierarchy, Label, Standing};
use std::alloc::{AllocError, Global};

/// What happens in a tick, by the ways down to the places where it does.
#[derive(Drop)]
pub(crate) struct Moment {
    pub(crate) tick: u32,
    pub(crate) begun: List<List<Label>>,
    pub(crate) woken: List<List<Label>>,
    pub(crate) dropped: List<List<Label>>,
}

/// What is known of a tick before its places are looked at.
#[derive(Clone, Copy)]
struct Scene<'a> {
    hierarchy: &'a Hierarchy,
    /// Who is told something in the tick.
    roused: &'a [Name],
    /// Whether a stay begins.
    begins: bool,
}

/// Whether something may happen to the node of a name.
fn may_happen(scene: &Scene<'_>, event: Event, name: &Name) -> bool
    ensures { result ≡ scenes.may_happen scene.now.roused.now scene.now.begins event name.now }
{
    match event {
        Event::Begun => scene.begins,
        Event::Woken | Event::Dropped => is_roused(scene.roused, name),
    }
}

/// What may happen at a place is asked for: the node that is there.
fn node_in(scene: &Scene<'_>, event: Event, label: &Label) -> Option<Node>
    ensures { result ≡ told.node_if (scenes.may_happen scene.now.roused.now scene.now.begins event label.now.name)
        label.now (standing_of scene.now.hierarchy.now.standing.items label.now.name) }
{
    if may_happen(scene, event, &label.name) {
        node_at(&scene.hierarchy.standing, label)
    } else {
        None
    }
}

/// The ways down to the places of a tick where something happens.
fn ways_with(
    alloc: Global,
    report: &Report,
    sources: &mut Sources,
    scene: &Scene<'_>,
    asked: Asked,
) -> Result<List<List<Label>>, AllocError>
    requires formed { IsWellFormed report.now }
    requires sources { AreSources report.now sources.old }
    requires hierarchy { IsHierarchy (content_of report.now) asked.tick scene.now.hierarchy.now }
    requires all { told.KnowsAll (content_of report.now) asked.tick scene.now.roused.now scene.now.begins }
    ensures sources { OnOk result (AreSources report.now sources.new) }
    ensures ways { IfOk result (λ ways. ways ≡ told.ways_with (content_of report.now) asked.event asked.tick) }
{
    let mut ways = Vec::new(alloc);
    for place in &scene.hierarchy.places {
        let node = node_in(scene, asked.event, &place.label);
        if happens_if(alloc, report, sources, asked, node)? {
            ways.push(List::of(place.labels(alloc)?))?;
        }
    }
    Ok(List::of(ways))
}

/// Whether a stay begins in a tick.
fn any_begun(answered: &[Answered], standing: &[Standing], tick: u32) -> bool
    ensures { result ≡ scenes.any_begun answered.now tick standing.now }
{
    standing.iter().any(|s| is_of(answered, s.opened, tick))
}

/// What happens in a tick.
fn moment_at(
    alloc: Global,
    report: &Report,
    sources: &mut Sources,
    scene: &Scene<'_>,
    tick: u32,
) -> Result<Moment, AllocError>
    requires formed { IsWellFormed report.now }
    requires sources { AreSources report.now sources.old }
    requires hierarchy { IsHierarchy (content_of report.now) tick scene.now.hierarchy.now }
    requires all { told.KnowsAll (content_of report.now) tick scene.now.roused.now scene.now.begins }
    ensures sources { OnOk result (AreSources report.now sources.new) }
    ensures is { IfOk result (told.IsOf (content_of report.now) tick) }
{
    let begun = Asked {
        event: Event::Begun,
        tick,
    };
    let woken = Asked {
        event: Event::Woken,
        tick,
    };
    let dropped = Asked {
        event: Event::Dropped,
        tick,
    };
    Ok(Moment {
        tick,
        begun: ways_with(alloc, report, sources, scene, begun)?,
        woken: ways_with(alloc, report, sources, scene, woken)?,
        dropped: ways_with(alloc, report, sources, scene, dropped)?,
    })
}

impl Moment {
    fn ways(&self, event: Event) -> &[List<Label>]
        ensures { result.now ≡ told.ways_of self.now event }
    {
        match event {
            Event::Begun => self.begun.items(),
            Event::Woken => self.woken.items(),
            Event::Dropped => self.dropped.items(),
        }
    }

    /// Whether something happens in a row.
    pub(crate) fn has(&self, event: Event, row: &[Label]) -> bool
        ensures { result ≡ told.has event row.now self.now }
    {
        self.ways(event).iter().any(|way| is_same(row, way.items()))
    }
}

/// Whether the last moment is that of a tick.
fn is_last(moments: &[Moment], tick: u32) -> bool
    ensures { result ≡ true → list_any (told.is_at tick) moments.now ≡ true }
{
    match moments.last() {
        Some(moment) => moment.tick == tick,
        None => false,
    }
}

/// What happens in ticks, and what is found of the report on the way.
#[derive(Drop)]
struct Gathering {
    sources: Sources,
    following: Following,
    moments: Vec<Moment>,
}

impl Gathering {
    /// Puts what happens in a tick behind all others, if it is not there yet.
    fn put(
        &mut self,
        alloc: Global,
        report: &Report,
        notes: &[Note],
        tick: u32,
    ) -> Result<(), AllocError>
        requires formed { IsWellFormed report.now }
        requires gathering { told.IsGathering report.now self.old }
        requires order { AreInOrder notes.now }
        requires notes { scenes.AreSaid (content_of report.now) tick notes.now }
        ensures gathering { OnOk result (told.IsGathering report.now self.new) }
        ensures put { OnOk result
            (told.IsPut (content_of report.now) tick self.old.moments.items self.new.moments.items) }
    {
        if is_last(&self.moments, tick) {
            return Ok(());
        }
        self.following.go_to(alloc, report, tick)?;
        let hierarchy = &self.following.hierarchy;
        let roused = roused_in(alloc, notes, tick)?;
        let scene = Scene {
            hierarchy,
            roused: &roused,
            begins: any_begun(report.answered.items(), &hierarchy.standing, tick),
        };
        let moment = moment_at(alloc, report, &mut self.sources, &scene, tick)?;
        self.moments.push(moment)?;
        Ok(())
    }
}

/// What happens in each shown tick in which something does.
///
/// # Errors
/// Returns `AllocError` for want of memory.
pub(crate) fn moments_of(
    alloc: Global,
    report: &Report,
    scale: &Scale,
) -> Result<Vec<Moment>, AllocError>
    requires { IsWellFormed report.now }
    ensures { IfOk result (λ moments. told.AreMoments (content_of report.now) scale.now moments.items) }
{
    let mut gathering = Gathering {
        sources: Sources::of(alloc, report)?,
        following: Following::new(alloc),
        moments: Vec::new(alloc),
    };
    let notes = notes_of(alloc, report, scale)?;
    for at in 0..notes.len() {
        let tick = notes[at].tick;
        if scale.from <= tick && tick <= scale.to {
            gathering.put(alloc, report, &notes, tick)?;
        }
    }
    Ok(gathering.moments)
}
