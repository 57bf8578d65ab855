// What became of a job.
ghost use Rattle.hls_chron.specs.Ranges.{longest_horizon};
ghost use Rattle.std.specs.Prelude.{◌≡◌, ◌+◌, ◌≤◌, All};
ghost use Rattle.hls_guarantee.specs.Limits.{IsValid};
ghost use Rattle.hls_legal.specs.declared.stay.Stay.{Stay as StayRecord};
ghost use Rattle.hls_report_text.specs.Content.{content_of};
ghost use Rattle.hls_report_text.specs.WellFormed.{IsWellFormed};
ghost use Rattle.hls_audit_threads.specs.Inside.Ticks.{TellsServed};
ghost use Rattle.hls_view_jobs.specs.Jobs.{IsJob, bound_by, has_ticks};
ghost use Rattle.hls_view_jobs.specs.Inside.Sound.{IsRelease, AreStaysOf, fate_by, stay_among};

use crate::bounds::promised_in;
use crate::job::{Fate, Job, Release};
use hls_audit_spans::Spans;
use hls_chron::Name;
use hls_legal::Stay;
use hls_report_text::Report;

/// What became of a job that got so much of what it asked for by a tick.
fn fate_by(release: &Release, reach: u32, got: u32) -> Fate
    ensures { result ≡ fate_by release.now reach got }
{
    if release.asked <= got {
        return Fate::Done {
            at: reach.saturating_sub(1),
        };
    }
    match release.next {
        Some(by) => Fate::Dropped { by },
        None => Fate::Open,
    }
}

/// Whether a stay has so many ticks from one on.
fn has_ticks(horizon: u32, from: u32, ticks: u32, stay: &Stay) -> bool
    requires few { from + ticks ≤ longest_horizon }
    ensures { result ≡ has_ticks horizon from ticks stay.now }
{
    let until = match stay.until {
        Some(until) => until,
        None => horizon,
    };
    stay.since <= from && from + ticks <= until
}

/// In how many ticks the first of these stays that has so many from one on promises what is asked for, if there is one.
fn bound_among(horizon: u32, stays: &[Stay], from: u32, ticks: u32, asked: u32) -> Option<u128>
    requires few { from + ticks ≤ longest_horizon }
    requires some { 1 ≤ asked }
    requires small { asked ≤ 100000 }
    requires valid { All (λ (s : StayRecord). IsValid s.kept) stays.now }
    ensures { result ≡ bound_by asked (stay_among horizon from ticks stays.now) }
{
    if ticks == 0 {
        return None;
    }
    for stay in stays {
        if has_ticks(horizon, from, ticks, stay) {
            return promised_in(&stay.kept, asked);
        }
    }
    None
}

/// The job of a release, by the ticks in which its thread is served and the stays of its thread.
pub(crate) fn job_of(
    report: &Report,
    name: &Name,
    served: &Spans,
    stays: &[Stay],
    release: &Release,
) -> Job
    requires formed { IsWellFormed report.now }
    requires sound { IsRelease report.now.horizon release.now }
    requires served { TellsServed (content_of report.now) name.now served.now.spans.items }
    requires stays { AreStaysOf (content_of report.now) name.now stays.now }
    ensures { IsJob (content_of report.now) name.now release.now result }
{
    let reach = served.reach(release.tick, release.asked, release.until(report.horizon));
    let ticks = reach - release.tick;
    let got = served.count(release.tick, ticks);
    Job {
        release: release.tick,
        asked: release.asked,
        ticks,
        got,
        fate: fate_by(release, reach, got),
        bound: bound_among(report.horizon, stays, release.tick, ticks, release.asked),
    }
}
