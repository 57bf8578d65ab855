// The first part with the least surplus: of all that have so many ticks, and of all.
ghost use Rattle.hls_chron.specs.Ranges.{longest_horizon};
ghost use Rattle.std.specs.Prelude.{◌≡◌, ◌+◌, ◌≤◌, ◌<◌, ℕ, Bool};
ghost use Rattle.hls_audit_spans.specs.Spans.{Tell};
ghost use Rattle.hls_view_margins.specs.First.{IsFirstOf};
ghost use Rattle.hls_view_margins.specs.Parts.{part, IsPart, IsLong};
ghost use Rattle.hls_view_margins.specs.Inside.Runs.{Leads};

use crate::first::{is_less, sooner};
use crate::margin::Part;
use crate::scale::Scale;
use hls_audit_spans::Spans;

/// So many ticks from one on, with the service that they had.
pub(crate) fn part_of(served: &Spans, from: u32, ticks: u32) -> Part
    requires few { from + ticks ≤ longest_horizon }
    ensures { (f : ℕ → Bool) (end : ℕ) → Tell f served.now.spans.items end → from + ticks ≤ end →
        result ≡ part f from ticks }
{
    Part {
        from,
        ticks,
        got: served.count(from, ticks),
    }
}

/// Of the parts of so many ticks, those from one on and before another, the first that has the least surplus.
pub(crate) fn least_of_length(
    scale: &Scale,
    served: &Spans,
    lo: u32,
    hi: u32,
    ticks: u32,
) -> Option<Part>
    requires some { 1 ≤ ticks }
    requires fits { lo + ticks ≤ hi }
    requires few { hi ≤ longest_horizon }
    ensures { (f : ℕ → Bool) (end : ℕ) → Tell f served.now.spans.items end → hi ≤ end →
        IsFirstOf scale.now (IsLong f lo hi ticks) result }
{
    let mut first = None;
    for from in lo..hi - ticks + 1 {
        first = sooner(scale, first, Some(part_of(served, from, ticks)));
    }
    first
}

/// Of all parts, the first that has the least surplus.
pub(crate) fn least_of_all(scale: &Scale, served: &Spans, lo: u32, hi: u32) -> Option<Part>
    requires order { lo ≤ hi }
    requires few { hi ≤ longest_horizon }
    ensures { (f : ℕ → Bool) (end : ℕ) → Tell f served.now.spans.items end → hi ≤ end →
        IsFirstOf scale.now (IsPart f lo hi) result }
{
    let mut first = None;
    let mut since = lo;
    for tick in lo..hi {
        since = run_since(scale, served, since, tick);
        first = sooner(scale, first, Some(part_of(served, since, tick + 1 - since)));
    }
    first
}

/// Where the part begins that has the least surplus of those that end with a tick, from where it does of those that end
/// before it: a part that has some is left behind.
fn run_since(scale: &Scale, served: &Spans, since: u32, tick: u32) -> u32
    requires order { since ≤ tick }
    requires few { tick < longest_horizon }
    ensures order { result ≤ tick }
    ensures leads { (f : ℕ → Bool) (end : ℕ) → Tell f served.now.spans.items end → tick < end → (lo : ℕ) →
        Leads scale.now f lo tick since → Leads scale.now f lo (tick + 1) result }
{
    let run = part_of(served, since, tick - since);
    if is_less(scale, &part_of(served, tick, 0), &run) {
        tick
    } else {
        since
    }
}
