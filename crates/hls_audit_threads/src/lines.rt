// What the last word on a thread leaves of it, tick by tick.
ghost use Rattle.std.specs.Prelude.{◌≡◌, ◌+◌, ◌<◌, ◌≤◌, ℕ, Bool, Some, IfSome, OnOk, min};
ghost use Rattle.hls_audit_spans.specs.Spans.{Tell};
ghost use Rattle.hls_releases.specs.Releases.{IsRelease, is_unserved};
ghost use Rattle.hls_audit_threads.specs.Inside.Lines as told;

use hls_audit_spans::Spans;
use hls_releases::last_release;
use hls_scenario::Command;
use std::alloc::AllocError;

/// What the last word on a thread leaves of it.
#[derive(Clone, Copy, Debug, PartialEq, Eq)]
pub(crate) enum Readiness {
    Asleep,
    Awake,
    /// Awake until it was served so many ticks, and anew in every so many ticks.
    Burst { ticks: u32, every: Option<u32> },
}

/// What a command leaves of the thread that it rouses.
pub(crate) fn readiness_of(command: &Command) -> Readiness
    ensures { result ≡ told.readiness_of command.now }
{
    match command {
        Command::Wake { burst: None, .. } => Readiness::Awake,
        Command::Wake {
            every,
            burst: Some(ticks),
            ..
        } => Readiness::Burst {
            ticks: *ticks,
            every: *every,
        },
        _ => Readiness::Asleep,
    }
}

/// A wake with a release in its own tick and one in every so many ticks after it, each for so many ticks.
#[derive(Clone, Copy, Debug, PartialEq, Eq)]
struct Periodic {
    since: u32,
    period: u32,
    ticks: u32,
}

impl Periodic {
    /// The last release up to the next served tick, from a release on and before an end. It is fast where so many
    /// served spans, or a few more, begin by then.
    fn used(&self, served: &Spans, near: usize, release: u32, until: u32) -> Option<u32>
        requires some { 0 < self.now.period }
        requires release { release < until → IsRelease self.now.period self.now.since release }
        ensures release { IfSome result (told.IsReleaseFrom self.now.period self.now.since release until) }
        ensures next { (f : ℕ → Bool) (end : ℕ) → Tell f served.now.spans.items end → release ≤ end → until ≤ end →
            told.IsUnused f release (told.end_or until result) }
    {
        match served.next_near(near, release) {
            Some(at) => {
                let at = at.max(release);
                if at < until {
                    Some(last_release(Some(self.period), self.since, at))
                } else {
                    None
                }
            }
            None => None,
        }
    }

    /// The tick before which the ticks from a release on have no later one, or else an end.
    fn end_of(&self, release: u32, until: u32) -> u32
        ensures { result ≡ min (release + self.now.period) until }
    {
        release.saturating_add(self.period).min(until)
    }

    /// Adds the ticks from its own on and before an end in which a thread is ready by it. What is looked at are the
    /// releases that were served a tick: between these the thread is ready.
    fn fill(&self, ready: &mut Spans, served: &Spans, until: u32) -> Result<(), AllocError>
        requires order { self.now.since ≤ until }
        requires some { 0 < self.now.period }
        requires burst { 0 < self.now.ticks }
        ensures { OnOk result ((f g : ℕ → Bool) (end : ℕ) → Tell f served.now.spans.items end → until ≤ end →
            Tell g ready.old.spans.items self.now.since →
            ((t : ℕ) → self.now.since ≤ t → t < until → g t
            ≡ is_unserved f (Some self.now.period) self.now.ticks self.now.since t) →
            Tell g ready.new.spans.items until) }
    {
        let mut from = self.since;
        let mut release = self.since;
        let mut near = 0;
        while let Some(used) = self.used(served, near, release, until) {
            let end = self.end_of(used, until);
            near = served.begun_near(near, used);
            let reach = served.reach_near(near, used, self.ticks, end);
            if from < reach && reach < end {
                ready.add(from, reach)?;
                from = end;
            }
            release = end;
        }
        if from < until {
            ready.add(from, until)?;
        }
        Ok(())
    }
}

/// Until when a thread is ready by a readiness that begins at a tick and has no later release, or else an end.
fn reach_of(readiness: Readiness, served: &Spans, since: u32, until: u32) -> u32
    requires order { since ≤ until }
    ensures { (f : ℕ → Bool) (end : ℕ) → Tell f served.now.spans.items end → until ≤ end →
        told.IsOn f readiness since until result }
{
    match readiness {
        Readiness::Asleep => since,
        Readiness::Awake => until,
        Readiness::Burst { ticks, .. } => served.reach(since, ticks, until),
    }
}

/// A periodic wake in a tick, if that is what there is.
fn periodic_of(readiness: Readiness, since: u32) -> Option<Periodic>
    ensures { told.IsPeriodicOf readiness since result }
{
    match readiness {
        Readiness::Burst {
            ticks,
            every: Some(period),
        } => {
            if ticks > 0 && period > 0 {
                Some(Periodic {
                    since,
                    period,
                    ticks,
                })
            } else {
                None
            }
        }
        _ => None,
    }
}

/// Adds the ticks from one on and before another in which a thread is ready, by a readiness that begins with them.
pub(crate) fn fill(
    ready: &mut Spans,
    readiness: Readiness,
    served: &Spans,
    since: u32,
    until: u32,
) -> Result<(), AllocError>
    requires order { since ≤ until }
    ensures { OnOk result ((f g : ℕ → Bool) (end : ℕ) → Tell f served.now.spans.items end → until ≤ end →
        Tell g ready.old.spans.items since →
        ((t : ℕ) → since ≤ t → t < until → g t ≡ told.is_on f readiness since t) →
        Tell g ready.new.spans.items until) }
{
    if let Some(wake) = periodic_of(readiness, since) {
        wake.fill(ready, served, until)?;
        return Ok(());
    }
    let reach = reach_of(readiness, served, since, until);
    if since < reach {
        ready.add(since, reach)?;
    }
    Ok(())
}
