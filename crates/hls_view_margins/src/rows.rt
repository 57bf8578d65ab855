// Rows of ticks in which a thread is ready, or is ready and not served.
ghost use Rattle.hls_chron.specs.Ranges.{longest_horizon};
ghost use Rattle.std.specs.Prelude.{◌≡◌, ◌+◌, ◌-◌, ◌≤◌, ◌<◌, ℕ, Bool, true, false};
ghost use Rattle.hls_audit_spans.specs.Spans.{Tell};
ghost use Rattle.hls_view_margins.specs.Rows.{IsLongestOf};
ghost use Rattle.hls_view_margins.specs.Inside.Tests.{counts, Since, IsLongerOf};
ghost use Rattle.hls_view_margins.specs.Steady.{IsSteady};
ghost use Rattle.hls_view_margins.specs.Inside.Worst.{IsTurn};

use crate::margin::Row;
use hls_audit_spans::Spans;

/// Whether a tick is one of them.
pub fn is_in(ticks: &Spans, tick: u32) -> bool
    requires few { tick < longest_horizon }
    ensures { (f : ℕ → Bool) (end : ℕ) → Tell f ticks.now.spans.items end → tick < end → result ≡ f tick }
{
    ticks.count(tick, 1) == 1
}

/// Whether a thread is ready in a tick, and where it is to wait, is not served.
fn is_counted(ready: &Spans, served: &Spans, waiting: bool, tick: u32) -> bool
    requires few { tick < longest_horizon }
    ensures { (f g : ℕ → Bool) (end : ℕ) → Tell f ready.now.spans.items end → Tell g served.now.spans.items end →
        tick < end → result ≡ counts waiting f g tick }
{
    is_in(ready, tick) & !(waiting & is_in(served, tick))
}

/// The longer of a row and another, which begins later.
fn longer(first: Option<Row>, from: u32, ticks: u32) -> Option<Row>
    ensures { IsLongerOf first from ticks result }
{
    match first {
        None => {
            if ticks == 0 {
                None
            } else {
                Some(Row { from, ticks })
            }
        }
        Some(row) => {
            if row.ticks < ticks {
                Some(Row { from, ticks })
            } else {
                Some(row)
            }
        }
    }
}

/// The first tick that is none of them, of those from one on and before another, or else this other.
fn turn_off(ticks: &Spans, from: u32, until: u32) -> u32
    requires order { from ≤ until }
    requires few { until ≤ longest_horizon }
    ensures begins { from ≤ result }
    ensures ends { result ≤ until }
    ensures turn { (f : ℕ → Bool) (end : ℕ) → Tell f ticks.now.spans.items end → until ≤ end →
        IsTurn f false from until result }
{
    let mut low = from;
    let mut high = until;
    while low < high {
        let middle = low + (high - low) / 2;
        let through = middle + 1 - from;
        if ticks.count(from, through) == through {
            low = middle + 1;
        } else {
            high = middle;
        }
    }
    low
}

/// The first tick that is one of them, of those from one on and before another, or else this other.
fn turn_on(ticks: &Spans, from: u32, until: u32) -> u32
    requires order { from ≤ until }
    ensures begins { from ≤ result }
    ensures ends { result ≤ until }
    ensures turn { (f : ℕ → Bool) (end : ℕ) → Tell f ticks.now.spans.items end → until ≤ end →
        IsTurn f true from until result }
{
    match ticks.next(from) {
        Some(next) => next.max(from).min(until),
        None => until,
    }
}

/// The first tick that is one of them, or is none where `on` is false, of those from one on and before another, or else
/// this other.
pub(crate) fn turn(ticks: &Spans, on: bool, from: u32, until: u32) -> u32
    requires order { from ≤ until }
    requires few { until ≤ longest_horizon }
    ensures begins { from ≤ result }
    ensures ends { result ≤ until }
    ensures turn { (f : ℕ → Bool) (end : ℕ) → Tell f ticks.now.spans.items end → until ≤ end →
        IsTurn f on from until result }
{
    if on {
        turn_on(ticks, from, until)
    } else {
        turn_off(ticks, from, until)
    }
}

/// The first tick behind one that is none of them where this one is, or the other way round, or else an end.
pub fn steady_until(ticks: &Spans, tick: u32, hi: u32) -> u32
    requires early { tick < hi }
    requires few { hi ≤ longest_horizon }
    ensures later { tick < result }
    ensures ends { result ≤ hi }
    ensures steady { (f : ℕ → Bool) (end : ℕ) → Tell f ticks.now.spans.items end → hi ≤ end → IsSteady f tick result }
{
    let on = is_in(ticks, tick);
    turn(ticks, !on, tick + 1, hi)
}

/// A tick behind one, at most an end, up to which a thread is counted as in this one.
fn counted_until(ready: &Spans, served: &Spans, waiting: bool, tick: u32, hi: u32) -> u32
    requires early { tick < hi }
    requires few { hi ≤ longest_horizon }
    ensures later { tick < result }
    ensures ends { result ≤ hi }
    ensures steady { (f g : ℕ → Bool) (end : ℕ) → Tell f ready.now.spans.items end →
        Tell g served.now.spans.items end → hi ≤ end → IsSteady (counts waiting f g) tick result }
{
    let until = steady_until(ready, tick, hi);
    if waiting & is_in(ready, tick) {
        steady_until(served, tick, until)
    } else {
        until
    }
}

/// Where the row of a test begins that ends with the last tick before one, if the ticks from another on are alike.
fn since_after(since: u32, tick: u32, until: u32, on: bool) -> u32
    requires order { since ≤ tick }
    requires later { tick < until }
    ensures order { result ≤ until }
    ensures since { (f : ℕ → Bool) (lo : ℕ) → on ≡ f tick → IsSteady f tick until → Since f lo tick since →
        Since f lo until result }
{
    if on { since } else { until }
}

/// The first of the longest rows of ticks, of those from one on and before another, in which a thread is ready, and
/// where it is to wait, is not served.
pub(crate) fn longest_row(
    ready: &Spans,
    served: &Spans,
    waiting: bool,
    lo: u32,
    hi: u32,
) -> Option<Row>
    requires order { lo ≤ hi }
    requires few { hi ≤ longest_horizon }
    ensures { (f g : ℕ → Bool) (end : ℕ) → Tell f ready.now.spans.items end → Tell g served.now.spans.items end →
        hi ≤ end → IsLongestOf (counts waiting f g) lo hi result }
{
    let mut longest = None;
    let mut since = lo;
    let mut tick = lo;
    while tick < hi {
        let on = is_counted(ready, served, waiting, tick);
        let until = counted_until(ready, served, waiting, tick, hi);
        since = since_after(since, tick, until, on);
        longest = longer(longest, since, until - since);
        tick = until;
    }
    longest
}
