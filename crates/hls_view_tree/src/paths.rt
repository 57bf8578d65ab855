// The path of a tick, by its names.
ghost use Rattle.std.specs.Prelude.{◌≡◌, ◌≤◌, IfOk, find, option_copied, slice_get};
ghost use Rattle.std.specs.List.{AllByRecursion};
ghost use Rattle.hls_chron.specs.Name.{IsName};
ghost use Rattle.hls_report_text.specs.Content.{content_of, path_names};
ghost use Rattle.hls_report_text.specs.WellFormed.{IsWellFormed};
ghost use Rattle.hls_legal.specs.Schedule as spelled;
ghost use Rattle.hls_view_tree.specs.Inside.Runs.{is_run_of};

use hls_chron::{List, Name};
use hls_report_text::{Path, Report, Run};
use std::alloc::{AllocError, Global};

fn is_run_of(tick: u32, run: &Run) -> bool
    ensures { result ≡ is_run_of tick run.now }
{
    run.from <= tick && tick <= run.to
}

fn run_of(runs: &[Run], tick: u32) -> Option<&Run>
    ensures { option_copied result ≡ find (is_run_of tick) runs.now }
{
    runs.iter().find(|run| is_run_of(tick, run))
}

fn name_at(names: &[Name], place: u16) -> Option<Name>
    ensures { result ≡ slice_get names.now place }
{
    names.get(place as usize).copied()
}

/// The names that a path stands for.
fn names_on(alloc: Global, known: &[Name], path: &Path) -> Result<Vec<Name>, AllocError>
    requires short { path.now.len ≤ 9 }
    requires named { AllByRecursion IsName (path_names known.now path.now) }
    ensures { IfOk result (λ names. names.items ≡ path_names known.now path.now) }
{
    let mut names = Vec::new(alloc);
    for place in &path.names[..path.len as usize] {
        let Some(name) = name_at(known, *place) else {
            unreachable!();
        };
        names.push(name)?;
    }
    Ok(names)
}

/// The path of a tick, by its names; none where the tick is idle.
///
/// # Errors
/// Returns `AllocError` for want of memory.
pub(crate) fn path_at(
    alloc: Global,
    report: &Report,
    tick: u32,
) -> Result<Option<List<Name>>, AllocError>
    requires { IsWellFormed report.now }
    ensures { IfOk result (λ path. path ≡ spelled.path_at (content_of report.now).stretches tick) }
{
    let Some(run) = run_of(report.runs.items(), tick) else {
        return Ok(None);
    };
    match &run.path {
        Some(path) => {
            let names = names_on(alloc, report.names.items(), path)?;
            Ok(Some(List::of(names)))
        }
        None => Ok(None),
    }
}
