// The service of the last ticks.
ghost use Rattle.hls_chron.specs.Ranges.{longest_horizon};
ghost use Rattle.std.specs.Prelude.{◌≡◌, ℕ, ◌+◌, ◌-◌, ◌%◌, ◌<◌, ◌≤◌, [], ◌∷◌, ◌++◌, length, OnOk, IfOk};
ghost use Rattle.hls_chron.specs.Ticks.{one_if, count};
ghost use Rattle.hls_guarantee.specs.Service.{schedule_of};

use crate::past::Past;
use std::alloc::{AllocError, Global};
use std::marker::Model;

/// The service in one tick.
pub(crate) fn service(served: bool) -> u32
    ensures { result ≡ one_if served }
{
    u32::from(served)
}

/// The place in a ring behind one.
pub(crate) fn next_place(place: u32, period: u32) -> u32
    requires { place < period }
    ensures { (tick : ℕ) → place ≡ tick % period → result ≡ (tick + 1) % period }
{
    if place + 1 < period { place + 1 } else { 0 }
}

/// The ticks so far, of which the service is known from each of the last ones on. The counts stand in a ring.
#[derive(Drop)]
pub(crate) struct Recent {
    past: Past,
    period: u32,
    pushed: u32,
    place: u32,
    total: u32,
    before: Vec<u32>,
}

impl Model for Recent {
    ghost use Rattle.hls_audit_watch.specs.Inside.Lately.{Lately};
    ghost use Rattle.hls_audit_watch.specs.Inside.Counts.{AreCounts};

    ghost Value = { Lately };

    ghost view = { λ r. record { period = r.period; list = r.past.list } };

    ghost invariant = { λ r. AreCounts r.period r.pushed r.place r.total r.before.items r.past.list };
}

impl Recent {
    /// No tick yet, with room for the counts of so many.
    pub(crate) fn new(alloc: Global, period: u32) -> Result<Recent, AllocError>
        requires { 1 ≤ period }
        ensures { IfOk result (λ r. r ≡ record { period = period; list = [] }) }
    {
        let before = vec![in alloc; 0; period as usize]?;
        Ok(Recent {
            past: Past::none(),
            period,
            pushed: 0,
            place: 0,
            total: 0,
            before,
        })
    }

    /// How many ticks there were.
    pub(crate) fn len(&self) -> u32
        ensures number { result ≡ length self.now.list }
        ensures few { result ≤ longest_horizon }
    {
        self.pushed
    }

    /// From how many ticks back the service is known.
    pub(crate) fn period(&self) -> u32
        ensures number { result ≡ self.now.period }
        ensures some { 1 ≤ result }
    {
        self.period
    }

    /// The place of the tick behind the one that comes next.
    pub(crate) fn next_place(&self) -> u32
        ensures { result ≡ (length self.now.list + 1) % self.now.period }
    {
        next_place(self.place, self.period)
    }

    /// The service from a tick on, which is one of the last, or the next. Its place is known.
    pub(crate) fn since(&self, _start: u32, place: u32) -> u32
        requires start { _start ≤ length self.now.list }
        requires late { length self.now.list < _start + self.now.period }
        requires place { place ≡ _start % self.now.period }
        ensures { result ≡ count (schedule_of self.now.list) _start (length self.now.list - _start) }
    {
        self.total - self.before[place as usize]
    }

    /// One tick more.
    pub(crate) fn push(&mut self, served: bool)
        requires { length self.old.list < longest_horizon }
        ensures { self.new ≡ record self.old { list = self.old.list ++ served ∷ [] } }
    {
        self.total += service(served);
        self.pushed += 1;
        self.place = next_place(self.place, self.period);
        self.before[self.place as usize] = self.total;
        self.past = self.past.and(&served);
    }

    /// No tick again, with the room that there is.
    pub(crate) fn restart(&mut self)
        ensures { self.new ≡ record self.old { list = [] } }
    {
        self.past = Past::none();
        self.total = 0;
        self.pushed = 0;
        self.place = 0;
        self.before[0] = 0;
    }
}
