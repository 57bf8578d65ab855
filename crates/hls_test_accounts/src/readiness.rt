// In which ticks a thread is ready.
ghost use Rattle.std.specs.Prelude.{◌≡◌, ◌+◌, ◌^◌, ◌<◌, ◌≤◌, option_copied};
ghost use Rattle.hls_chron.specs.Ticks.{count};
ghost use Rattle.hls_releases.specs.Releases.{last_release};
ghost use Rattle.hls_report_text.specs.Content.{content_of};
ghost use Rattle.hls_legal.specs.Schedule as spelled;
ghost use Rattle.hls_legal.specs.Ready as told;

use crate::commands::last_rousing;
use crate::schedule::is_served;
use hls_chron::Name;
use hls_report_text::{Answered, Report};
use hls_scenario::Command;

/// In how many of so many ticks, from one on, the thread of a name is served.
#[tactic(auto, using(hls_kinds::proofs::TickLaws::tick_laws))]
pub fn count_served(report: &Report, name: &Name, from: u32, ticks: u32) -> u32
    requires { from + ticks < 2 ^ 32 }
    ensures { result ≡ count (spelled.is_served (content_of report.now).stretches name.now) from ticks }
{
    let mut counted = 0;
    for k in 0..ticks {
        if is_served(report, name, from + k) {
            counted += 1;
        }
    }
    counted
}

/// The last release up to a tick of a wake in a tick before, by its definition.
fn release_before(every: Option<u32>, since: u32, tick: u32) -> u32
    requires order { since ≤ tick }
    ensures is { result ≡ last_release every since tick }
    ensures upto { result ≤ tick }
{
    match every {
        None | Some(0) => since,
        Some(period) => tick - (tick - since) % period,
    }
}

/// Whether what a command of a tick says of a thread makes it ready in a tick.
fn lasts(report: &Report, name: &Name, since: u32, tick: u32, command: &Command) -> bool
    requires order { since ≤ tick }
    ensures { result
        ≡ told.lasts (spelled.is_served (content_of report.now).stretches name.now) since tick command.now }
{
    match command {
        Command::Wake { burst: None, .. } => true,
        Command::Wake {
            every,
            burst: Some(ticks),
            ..
        } => {
            let from = release_before(*every, since, tick);
            count_served(report, name, from, tick - from) < *ticks
        }
        _ => false,
    }
}

/// Whether the thread of a name is ready in a tick.
#[tactic(auto, unfolding(hls_legal::specs::Ready::is_ready))]
pub fn is_ready(report: &Report, name: &Name, tick: u32) -> bool
    ensures { result ≡ told.is_ready (content_of report.now) name.now tick }
{
    match last_rousing(name, tick, report.answered.items()) {
        Some(a) => lasts(report, name, a.tick, tick, &a.command),
        None => false,
    }
}

/// In how many of so many ticks, from one on, the thread of a name is ready.
#[tactic(auto, using(hls_kinds::proofs::TickLaws::tick_laws))]
pub fn count_ready(report: &Report, name: &Name, from: u32, ticks: u32) -> u32
    requires { from + ticks < 2 ^ 32 }
    ensures { result ≡ count (told.is_ready (content_of report.now) name.now) from ticks }
{
    let mut counted = 0;
    for k in 0..ticks {
        if is_ready(report, name, from + k) {
            counted += 1;
        }
    }
    counted
}
