// Ticks as spans in their order.
ghost use Rattle.hls_chron.specs.Ranges.{longest_horizon};
ghost use Rattle.std.specs.Prelude.{◌≡◌, ◌+◌, ◌-◌, ◌<◌, ◌≤◌, ◌++◌, ◌∷◌, [], ℕ, Bool, true, false, IfOk};
ghost use Rattle.std.specs.Prelude.{OnOk, length, get_or, None};
ghost use Rattle.hls_chron.specs.Ticks.{count};
ghost use Rattle.hls_audit_spans.specs.Spans.{Tell, IsQuiet, IsNext, IsNth, IsReach, IsBeyond, IsBeyondIn, AreTicks};
ghost use Rattle.hls_audit_spans.specs.Inside.Places.{IsBegun, IsPassed, is_in};

use crate::span::Span;
use std::alloc::{AllocError, Global};

/// How many places are looked at from a guess on, before a search by halves.
const LOOKS: usize = 8;

/// Some ticks, as spans in their order.
#[derive(Drop)]
pub struct Spans {
    pub(crate) spans: Vec<Span>,
}

impl Spans {
    /// No ticks. Takes no memory.
    pub fn new(alloc: Global) -> Spans
        ensures { result.spans.items ≡ [] }
    {
        Spans {
            spans: Vec::new(alloc),
        }
    }

    /// The ticks from one on and before another as well, behind all others.
    ///
    /// # Errors
    /// Returns `AllocError` for want of memory.
    pub fn add(&mut self, from: u32, until: u32) -> Result<(), AllocError>
        requires order { from < until }
        ensures { OnOk result ((f : ℕ → Bool) → Tell f self.old.spans.items from →
            ((t : ℕ) → from ≤ t → t < until → f t ≡ true) → Tell f self.new.spans.items until) }
    {
        let idle = from - self.before_at(self.spans.len(), from);
        self.spans.push(Span { from, until, idle })?;
        Ok(())
    }

    /// How many spans begin at a tick or before it.
    fn begun(&self, tick: u32) -> usize
        ensures { IsBegun self.now.spans.items tick result }
    {
        let mut low = 0;
        let mut high = self.spans.len();
        while low < high {
            let middle = low + (high - low) / 2;
            if self.spans[middle].from <= tick {
                low = middle + 1;
            } else {
                high = middle;
            }
        }
        low
    }

    /// Whether just so many spans begin at a tick or before it.
    fn is_begun(&self, at: usize, tick: u32) -> bool
        ensures { result ≡ true → IsBegun self.now.spans.items tick at }
    {
        if self.spans.len() < at || 0 < at && tick < self.spans[at - 1].from {
            return false;
        }
        match self.spans.get(at) {
            Some(span) => tick < span.from,
            None => true,
        }
    }

    /// How many spans begin at a tick or before it. It is fast where a guess is near, and not above.
    pub fn begun_near(&self, near: usize, tick: u32) -> usize
        ensures { IsBegun self.now.spans.items tick result }
    {
        for at in near..near.saturating_add(LOOKS) {
            if self.is_begun(at, tick) {
                return at;
            }
        }
        self.begun(tick)
    }

    /// Before how many spans there are at most so many ticks.
    fn passed(&self, ticks: u32) -> usize
        ensures { IsPassed self.now.spans.items ticks result }
    {
        let mut low = 0;
        let mut high = self.spans.len();
        while low < high {
            let middle = low + (high - low) / 2;
            let span = self.spans[middle];
            if span.earlier() <= ticks {
                low = middle + 1;
            } else {
                high = middle;
            }
        }
        low
    }

    /// Whether before just so many spans there are at most so many ticks.
    fn is_passed(&self, at: usize, ticks: u32) -> bool
        ensures { result ≡ true → IsPassed self.now.spans.items ticks at }
    {
        if self.spans.len() < at || 0 < at && ticks < self.spans[at - 1].earlier() {
            return false;
        }
        match self.spans.get(at) {
            Some(span) => ticks < span.earlier(),
            None => true,
        }
    }

    /// Before how many spans there are at most so many ticks. It is fast where a guess is near, and not above.
    fn passed_near(&self, near: usize, ticks: u32) -> usize
        ensures { IsPassed self.now.spans.items ticks result }
    {
        for at in near..near.saturating_add(LOOKS) {
            if self.is_passed(at, ticks) {
                return at;
            }
        }
        self.passed(ticks)
    }

    /// How many of the ticks come before one.
    pub fn before(&self, tick: u32) -> u32
        ensures few { result ≤ tick }
        ensures count { (f : ℕ → Bool) (end : ℕ) → Tell f self.now.spans.items end → tick ≤ end →
            result ≡ count f 0 tick }
    {
        self.before_at(self.begun(tick), tick)
    }

    /// How many of the ticks come before one, by how many spans begin at it or before it.
    fn before_at(&self, at: usize, tick: u32) -> u32
        requires { at ≤ length self.now.spans.items }
        ensures few { result ≤ tick }
        ensures count { (f : ℕ → Bool) (end : ℕ) → Tell f self.now.spans.items end →
            IsBegun self.now.spans.items tick at → tick ≤ end → result ≡ count f 0 tick }
    {
        if at == 0 {
            return 0;
        }
        self.spans[at - 1].before(tick)
    }

    /// How many of the ticks there are among so many from one on.
    pub fn count(&self, from: u32, ticks: u32) -> u32
        requires few { from + ticks ≤ longest_horizon }
        ensures { (f : ℕ → Bool) (end : ℕ) → Tell f self.now.spans.items end → from + ticks ≤ end →
            result ≡ count f from ticks }
    {
        self.before(from + ticks).saturating_sub(self.before(from))
    }

    /// The first of the ticks from one on.
    pub fn next(&self, tick: u32) -> Option<u32>
        ensures { (f : ℕ → Bool) (end : ℕ) → Tell f self.now.spans.items end → tick ≤ end →
            IsNext f tick end result }
    {
        self.next_at(self.begun(tick), tick)
    }

    /// The first of the ticks from one on. It is fast where so many spans, or a few more, begin by then.
    pub fn next_near(&self, near: usize, tick: u32) -> Option<u32>
        ensures { (f : ℕ → Bool) (end : ℕ) → Tell f self.now.spans.items end → tick ≤ end →
            IsNext f tick end result }
    {
        self.next_at(self.begun_near(near, tick), tick)
    }

    /// The first of the ticks from one on, by how many spans begin at it or before it.
    fn next_at(&self, at: usize, tick: u32) -> Option<u32>
        requires { IsBegun self.now.spans.items tick at }
        ensures { (f : ℕ → Bool) (end : ℕ) → Tell f self.now.spans.items end → tick ≤ end →
            IsNext f tick end result }
    {
        if self.is_in(at, tick) {
            return Some(tick);
        }
        match self.spans.get(at) {
            Some(span) => Some(span.from),
            None => None,
        }
    }

    /// The first of the ticks from one on and before another, by how many spans begin at the one or before it.
    fn next_before(&self, at: usize, tick: u32, until: u32) -> Option<u32>
        requires { IsBegun self.now.spans.items tick at }
        ensures { (f : ℕ → Bool) (end : ℕ) → Tell f self.now.spans.items end → tick ≤ end → until ≤ end →
            IsNext f tick until result }
    {
        match self.next_at(at, tick) {
            Some(next) => { if next < until { Some(next) } else { None } }
            None => None,
        }
    }

    /// The tick before which all of them are.
    fn end(&self) -> u32
        ensures { (f : ℕ → Bool) (end : ℕ) → Tell f self.now.spans.items end → IsQuiet f result None end }
    {
        match self.spans.last() {
            Some(span) => span.until,
            None => 0,
        }
    }

    /// The first of the ticks that is not among others.
    pub fn first_beyond(&self, others: &Spans) -> Option<u32>
        ensures { (f g : ℕ → Bool) (end : ℕ) → Tell f self.now.spans.items end →
            Tell g others.now.spans.items end → IsBeyond f g end result }
    {
        self.first_beyond_in(others, 0, self.end())
    }

    /// The first of the ticks, from one on and before another, that is not among others.
    pub fn first_beyond_in(&self, others: &Spans, since: u32, until: u32) -> Option<u32>
        requires order { since ≤ until }
        ensures { (f g : ℕ → Bool) (end : ℕ) → Tell f self.now.spans.items end →
            Tell g others.now.spans.items end → until ≤ end → IsBeyondIn f g since until result }
    {
        let mut from = since;
        let mut near = self.begun(since);
        for at in others.begun(since).saturating_sub(1)..others.spans.len() {
            let span = others.spans[at];
            near = self.begun_near(near, from);
            let beyond = self.next_before(near, from, span.from.min(until));
            if beyond.is_some() {
                return beyond;
            }
            if until <= span.until {
                return None;
            }
            from = from.max(span.until);
        }
        self.next_before(self.begun_near(near, from), from, until)
    }

    /// The tick before which there are so many others. It is fast where a guess is near, and not above.
    fn nth_near(&self, near: usize, ticks: u32) -> Option<u32>
        ensures { (f : ℕ → Bool) (end : ℕ) → Tell f self.now.spans.items end → IsNth f ticks end result }
    {
        let at = self.passed_near(near, ticks);
        if at == 0 {
            return None;
        }
        let span = self.spans[at - 1];
        let so_far = span.so_far();
        if ticks < so_far {
            return Some(span.until - (so_far - ticks));
        }
        None
    }

    /// The first tick from one on by which so many of the ticks came since, or else the end.
    pub fn reach(&self, since: u32, ticks: u32, until: u32) -> u32
        requires order { since ≤ until }
        ensures { (f : ℕ → Bool) (end : ℕ) → Tell f self.now.spans.items end → until ≤ end →
            IsReach f since ticks until result }
    {
        self.reach_near(self.begun(since), since, ticks, until)
    }

    /// The first tick from one on by which so many of the ticks came since, or else the end. It is fast where so many
    /// spans, or a few more, begin by then.
    pub fn reach_near(&self, near: usize, since: u32, ticks: u32, until: u32) -> u32
        requires order { since ≤ until }
        ensures { (f : ℕ → Bool) (end : ℕ) → Tell f self.now.spans.items end → until ≤ end →
            IsReach f since ticks until result }
    {
        if ticks == 0 {
            return since;
        }
        if until - since <= ticks {
            return until;
        }
        let at = self.begun_near(near, since);
        match self.nth_near(at, self.before_at(at, since) + (ticks - 1)) {
            Some(last) => { if last < until { last + 1 } else { until } }
            None => until,
        }
    }

    /// Whether a tick is one of them, by how many spans begin at it or before it.
    fn is_in(&self, at: usize, tick: u32) -> bool
        requires { at ≤ length self.now.spans.items }
        ensures { result ≡ is_in self.now.spans.items at tick }
    {
        0 < at && tick < self.spans[at - 1].until
    }

    /// Marks which ticks from one on are of theirs, in a list that goes on to another.
    fn mark(&self, list: &mut [bool], from: u32, until: u32)
        requires long { from + length list.old ≡ until }
        requires blank { (t : ℕ) → get_or list.old t false ≡ false }
        ensures long { from + length list.new ≡ until }
        ensures ticks { (f : ℕ → Bool) (end : ℕ) → Tell f self.now.spans.items end → until ≤ end →
            AreTicks f from list.new }
    {
        let first = self.begun(from).saturating_sub(1);
        for at in first..self.spans.len() {
            let span = self.spans[at];
            if until <= span.from {
                return;
            }
            let begin = span.from.saturating_sub(from);
            let end = span.until.min(until).saturating_sub(from);
            turn_on(list, begin as usize, end as usize);
        }
    }

    /// Whether each tick from one on and before another is one of them.
    ///
    /// # Errors
    /// Returns `AllocError` for want of memory.
    pub fn list(&self, alloc: Global, from: u32, until: u32) -> Result<Vec<bool>, AllocError>
        requires order { from ≤ until }
        ensures long { IfOk result (λ list. from + length list.items ≡ until) }
        ensures ticks { IfOk result (λ list. (f : ℕ → Bool) (end : ℕ) → Tell f self.now.spans.items end →
            until ≤ end → AreTicks f from list.items) }
    {
        let mut list = vec![in alloc; false; (until - from) as usize]?;
        self.mark(&mut list, from, until);
        Ok(list)
    }
}

/// Turns on the places from one on and before another.
fn turn_on(list: &mut [bool], from: usize, until: usize)
    requires { until ≤ length list.old }
    ensures long { length list.new ≡ length list.old }
    ensures on { (t : ℕ) → from ≤ t → t < until → get_or list.new t false ≡ true }
    ensures before { (t : ℕ) → t < from → get_or list.new t false ≡ get_or list.old t false }
    ensures behind { (t : ℕ) → until ≤ t → get_or list.new t false ≡ get_or list.old t false }
{
    for at in from..until {
        list[at] = true;
    }
}
