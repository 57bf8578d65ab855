//! The releases of a wake: the wake itself, and, of a periodic one, one in every so many ticks after it.
#![tactic(auto)]

ghost use Rattle.std.specs.Prelude.{◌≡◌, ◌+◌, ◌≤◌, ◌<◌, ◌^◌};
ghost use Rattle.hls_releases.specs.Releases as releases;

/// The last release up to a tick of a wake in the tick `since`: the wake, or, where it has a release in every so many
/// ticks, the last of these.
pub fn last_release(every: Option<u32>, since: u32, tick: u32) -> u32
    requires order { since ≤ tick }
    ensures { result ≡ releases.last_release every since tick }
{
    match every {
        None | Some(0) => since,
        Some(period) => tick - (tick - since) % period,
    }
}

/// The first release after a tick of a wake in the tick `since` with a release in every so many ticks.
pub fn next_release(period: u32, since: u32, tick: u32) -> u32
    requires order { since ≤ tick }
    requires fits { tick + period < 2 ^ 32 }
    ensures { result ≡ releases.next_release period since tick }
{
    last_release(Some(period), since, tick) + period
}
