// The ticks that the runs of a report spell.
ghost use Rattle.std.specs.Prelude.{◌≡◌, ◌&&◌, [], nat_le, is_none, find, get_or};
ghost use Rattle.hls_report_text.specs.Content.{content_of, path_names};
ghost use Rattle.hls_legal.specs.Schedule as spelled;

use hls_chron::Name;
use hls_report_text::{Path, Report, Run};

/// The run that has a tick.
fn run_at(runs: &[Run], tick: u32) -> Option<Run>
    ensures { result ≡ find (λ (run : Run). nat_le run.from tick && nat_le tick run.to) runs.now }
{
    runs.iter()
        .copied()
        .find(|run| run.from <= tick && tick <= run.to)
}

/// The name at a place of a list, and nothing where there is none.
fn name_at(names: &[Name], place: u16) -> &[u8]
    ensures { result.now ≡ get_or names.now place [] }
{
    match names.get(usize::from(place)) {
        Some(name) => name.bytes(),
        None => b"",
    }
}

/// Whether a path ends in the thread of a name.
fn ends_in(names: &[Name], path: &Path, name: &Name) -> bool
    ensures { result ≡ spelled.is_name name.now (spelled.last_name (path_names names.now path.now)) }
{
    match path.last_place() {
        Some(place) => name_at(names, place) == name.bytes(),
        None => false,
    }
}

/// Whether a tick is idle.
pub fn is_idle(report: &Report, tick: u32) -> bool
    ensures { result ≡ is_none (spelled.path_at (content_of report.now).stretches tick) }
{
    match run_at(report.runs.items(), tick) {
        Some(run) => match run.path {
            Some(_) => false,
            None => true,
        },
        None => true,
    }
}

/// Whether the thread of a name is served in a tick.
pub fn is_served(report: &Report, name: &Name, tick: u32) -> bool
    ensures { result ≡ spelled.is_served (content_of report.now).stretches name.now tick }
{
    match run_at(report.runs.items(), tick) {
        Some(run) => match run.path {
            Some(path) => ends_in(report.names.items(), &path, name),
            None => false,
        },
        None => false,
    }
}
