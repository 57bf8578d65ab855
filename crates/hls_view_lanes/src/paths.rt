// The run and the path of each tick, and the way that it names.
ghost use Rattle.std.specs.Prelude.{◌≡◌, ◌+◌, ◌≤◌, ◌<◌, IfOk, find, option_and_then, option_copied, option_map};
ghost use Rattle.std.specs.List.{AllByRecursion};
ghost use Rattle.hls_chron.specs.Name.{IsName};
ghost use Rattle.hls_report_text.specs.Content.{content_of, path_names};
ghost use Rattle.hls_report_text.specs.WellFormed.{HasShort, IsWellFormed};
ghost use Rattle.hls_legal.specs.Schedule.{path_at};
ghost use Rattle.hls_audit.specs.Inside.Leading.{IsReached};
ghost use Rattle.hls_view_lanes.specs.Facts as told;
ghost use Rattle.hls_view_lanes.specs.Inside.Paths.{AreNamed, AreRuns, path_in};

use hls_chron::{List, Name};
use hls_report_text::{Path, Report};
use hls_view_tale::Label;
use std::alloc::{AllocError, Global};

/// The place of the run that has a tick, from the place of the one that has the tick before it.
fn run_of(report: &Report, last: usize, tick: u32) -> usize
    requires formed { IsWellFormed report.now }
    requires early { tick < report.now.horizon }
    requires reached { IsReached report.now.runs tick last }
    ensures { IsReached report.now.runs (tick + 1) result }
{
    match report.runs.items().get(last) {
        Some(run) => { if run.to < tick { last + 1 } else { last } }
        None => last,
    }
}

/// The path of a tick, whose run is at a place.
pub(crate) fn path_of(report: &Report, at: usize, tick: u32) -> Option<Path>
    requires formed { IsWellFormed report.now }
    requires reached { IsReached report.now.runs (tick + 1) at }
    ensures short { HasShort result }
    ensures path { path_at (content_of report.now).stretches tick
        ≡ option_map (path_names report.now.names) result }
    ensures is { result ≡ path_in report.now.runs at }
{
    match report.runs.items().get(at) {
        Some(run) => run.path,
        None => None,
    }
}

/// The place of the run of each tick, from the first to the last.
///
/// # Errors
/// Returns `AllocError` for want of memory.
pub(crate) fn runs_of(alloc: Global, report: &Report) -> Result<Vec<usize>, AllocError>
    requires { IsWellFormed report.now }
    ensures { IfOk result (λ runs. AreRuns report.now.runs report.now.horizon runs.items) }
{
    let mut runs = Vec::new(alloc);
    let mut at = 0;
    for tick in 0..report.horizon {
        at = run_of(report, at, tick);
        runs.push(at)?;
    }
    Ok(runs)
}

/// The names of a path.
fn names_on(alloc: Global, report: &Report, path: &Path) -> Result<Vec<Name>, AllocError>
    requires short { path.now.len ≤ 9 }
    requires named { AllByRecursion IsName (path_names report.now.names path.now) }
    ensures { IfOk result (λ names. names.items ≡ path_names report.now.names path.now) }
{
    let mut names = Vec::new(alloc);
    for place in &path.names[..path.len as usize] {
        match report.names.items().get(*place as usize) {
            Some(name) => names.push(*name)?,
            None => unreachable!(),
        }
    }
    Ok(names)
}

/// Whether a way leads over these names.
fn leads_over(names: &[Name], way: &[Label]) -> bool
    ensures { result ≡ told.spells names.now way.now }
{
    if names.len() != way.len() {
        return false;
    }
    for (at, name) in names.iter().enumerate() {
        if *name != way[at].name {
            return false;
        }
    }
    true
}

/// The first way that leads over these names.
fn way_over<'a>(names: &[Name], ways: &'a [List<Label>]) -> Option<&'a List<Label>>
    ensures { option_copied result ≡ find (told.spells names.now) ways.now }
{
    ways.iter().find(|way| leads_over(names, way.items()))
}

/// The way that a path names, of those that are there.
///
/// # Errors
/// Returns `AllocError` for want of memory.
pub(crate) fn given<'a>(
    alloc: Global,
    report: &Report,
    path: &Option<Path>,
    ways: &'a [List<Label>],
) -> Result<Option<&'a List<Label>>, AllocError>
    requires short { HasShort path.now }
    requires named { AreNamed (option_map (path_names report.now.names) path.now) }
    ensures { IfOk result (λ given. option_copied given
        ≡ option_and_then (λ names. find (told.spells names) ways.now)
        (option_map (path_names report.now.names) path.now)) }
{
    match path {
        Some(path) => {
            let names = names_on(alloc, report, path)?;
            Ok(way_over(&names, ways))
        }
        None => Ok(None),
    }
}
