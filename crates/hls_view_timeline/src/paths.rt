// The path of each tick, and the way that it takes.
ghost use Rattle.std.specs.Prelude.{◌≡◌, ◌+◌, ◌<◌, [], IfOk, get_or, option_and_then, option_map, position};
ghost use Rattle.std.specs.Str.{bytes_eq};
ghost use Rattle.hls_report_text.specs.Content.{content_of, path_names};
ghost use Rattle.hls_report_text.specs.WellFormed.{HasShort, IsWellFormed};
ghost use Rattle.hls_legal.specs.Schedule.{path_at};
ghost use Rattle.hls_audit.specs.Inside.Leading.{IsReached};
ghost use Rattle.hls_view_lanes.specs.Facts as facts;
ghost use Rattle.hls_view_timeline.specs.Inside.Paths.{ArePaths, named};

use hls_chron::{List, Name};
use hls_report_text::{Path, Report};
use hls_view_tale::Label;
use std::alloc::{AllocError, Global};

/// The place of the run that has a tick, from the place of the one that has the tick before it.
fn run_of(report: &Report, last: usize, tick: u32) -> usize
    requires formed { IsWellFormed report.now }
    requires early { tick < report.now.horizon }
    requires reached { IsReached report.now.runs tick last }
    ensures { IsReached report.now.runs (tick + 1) result }
{
    match report.runs.items().get(last) {
        Some(run) => { if run.to < tick { last + 1 } else { last } }
        None => last,
    }
}

/// The path of a tick, whose run is at a place.
fn path_of(report: &Report, at: usize, tick: u32) -> Option<Path>
    requires formed { IsWellFormed report.now }
    requires reached { IsReached report.now.runs (tick + 1) at }
    ensures short { HasShort result }
    ensures path { path_at (content_of report.now).stretches tick
        ≡ option_map (path_names report.now.names) result }
{
    match report.runs.items().get(at) {
        Some(run) => run.path,
        None => None,
    }
}

/// The path of each tick, from the first to the last.
///
/// # Errors
/// Returns `AllocError` for want of memory.
pub(crate) fn paths_of(alloc: Global, report: &Report) -> Result<Vec<Option<Path>>, AllocError>
    requires { IsWellFormed report.now }
    ensures { IfOk result (λ paths.
        ArePaths (content_of report.now) report.now.names report.now.horizon paths.items) }
{
    let mut paths = Vec::new(alloc);
    let mut at = 0;
    for tick in 0..report.horizon {
        at = run_of(report, at, tick);
        paths.push(path_of(report, at, tick))?;
    }
    Ok(paths)
}

fn name_at(names: &[Name], place: u16) -> &[u8]
    ensures { result.now ≡ get_or names.now place [] }
{
    match names.get(usize::from(place)) {
        Some(name) => name.bytes(),
        None => &[],
    }
}

fn is_called(names: &[Name], place: u16, label: &Label) -> bool
    ensures { result ≡ bytes_eq (get_or names.now place []) label.now.name }
{
    name_at(names, place) == label.name.bytes()
}

/// Whether a way leads over the names at these places.
fn leads_over(names: &[Name], places: &[u16], way: &[Label]) -> bool
    ensures { result ≡ facts.spells (named names.now places.now) way.now }
{
    match places {
        [] => way.len() == 0,
        [place, places @ ..] => match way {
            [] => false,
            [label, way @ ..] => is_called(names, *place, label) && leads_over(names, places, way),
        },
    }
}

fn first_over(names: &[Name], places: &[u16], ways: &[List<Label>]) -> Option<usize>
    ensures { result ≡ position (facts.spells (named names.now places.now)) ways.now }
{
    ways.iter()
        .position(|way| leads_over(names, places, way.items()))
}

/// The number of the first way that leads over the names of a path.
pub(crate) fn taken(names: &[Name], path: &Option<Path>, ways: &[List<Label>]) -> Option<usize>
    requires short { HasShort path.now }
    ensures { result ≡ option_and_then (λ names. position (facts.spells names) ways.now)
        (option_map (path_names names.now) path.now) }
{
    match path {
        Some(path) => first_over(names, &path.names[..usize::from(path.len)], ways),
        None => None,
    }
}
