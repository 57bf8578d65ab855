// What becomes of a place at a tick.
ghost use Rattle.std.specs.Prelude.{◌≡◌, ◌<◌, IfOk};
ghost use Rattle.std.specs.List.{list_any};
ghost use Rattle.hls_report_text.specs.Content.{content_of};
ghost use Rattle.hls_report_text.specs.WellFormed.{IsWellFormed};
ghost use Rattle.hls_view_tale.specs.Hierarchies.{IsHierarchy};
ghost use Rattle.hls_view_tree.specs.Activities as activities;
ghost use Rattle.hls_view_tree.specs.Scenes.{IsScene};

use crate::asking::{asking_of, names_of};
use crate::paths::path_at;
use crate::since::is_same;
use hls_audit_threads::Lookup;
use hls_chron::{List, Name};
use hls_report_text::Report;
use hls_view_tale::{Hierarchy, Place};
use std::alloc::{AllocError, Global};

/// What becomes of a place at a tick.
#[derive(Clone, Copy, Debug, PartialEq, Eq)]
pub enum Activity {
    /// The path of the tick goes through it.
    Served,
    /// It does not, and a thread there or below is ready.
    Ready,
    /// No thread there or below is ready.
    Quiet,
}

/// Whether one way is the first part of another, or all of it.
fn begins(names: &[Name], way: &[Name]) -> bool
    ensures { result ≡ activities.begins names.now way.now }
{
    for at in 0..names.len() {
        match way.get(at) {
            Some(other) => {
                if !is_same(&names[at], other) {
                    return false;
                }
            }
            None => return false,
        }
    }
    true
}

/// The path of a tick, and the ways down to the threads that are ready at it.
#[derive(Debug, Drop)]
pub struct Scene {
    pub(crate) path: Option<List<Name>>,
    pub(crate) asking: Vec<List<Name>>,
}

impl Scene {
    /// The scene of a tick, by the hierarchy at it.
    ///
    /// # Errors
    /// Returns `AllocError` for want of memory.
    pub fn of(
        alloc: Global,
        report: &Report,
        hierarchy: &Hierarchy,
        tick: u32,
    ) -> Result<Scene, AllocError>
        requires formed { IsWellFormed report.now }
        requires early { tick < report.now.horizon }
        requires hierarchy { IsHierarchy (content_of report.now) tick hierarchy.now }
        ensures { IfOk result (IsScene (content_of report.now) tick) }
    {
        let path = path_at(alloc, report, tick)?;
        let lookup = Lookup::of(alloc, report)?;
        let asking = asking_of(alloc, report, &lookup, &hierarchy.places, tick)?;
        Ok(Scene { path, asking })
    }

    fn is_served(&self, names: &[Name]) -> bool
        ensures { result ≡ activities.goes_through names.now self.now.path }
    {
        match &self.path {
            Some(path) => begins(names, path.items()),
            None => false,
        }
    }

    fn is_ready(&self, names: &[Name]) -> bool
        ensures { result ≡ list_any (activities.begins names.now) self.now.asking.items }
    {
        self.asking.iter().any(|way| begins(names, way.items()))
    }

    /// What becomes of the place with these names on the way down to it; none are those of the processor.
    pub fn activity(&self, names: &[Name]) -> Activity
        ensures { result ≡ activities.activity_by self.now.path self.now.asking.items names.now }
    {
        if self.is_served(names) {
            return Activity::Served;
        }
        if self.is_ready(names) {
            return Activity::Ready;
        }
        Activity::Quiet
    }

    /// What becomes of a place.
    ///
    /// # Errors
    /// Returns `AllocError` for want of memory.
    pub fn activity_of(&self, alloc: Global, place: &Place) -> Result<Activity, AllocError>
        ensures { IfOk result (λ activity. activity
            ≡ activities.activity_by self.now.path self.now.asking.items (activities.names_of place.now)) }
    {
        let names = names_of(alloc, place)?;
        Ok(self.activity(names.items()))
    }
}
