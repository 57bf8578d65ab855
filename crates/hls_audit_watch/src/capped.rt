// A list of served and unserved ticks, watched tick by tick for a cap.
ghost use Rattle.hls_chron.specs.Ranges.{longest_horizon};
ghost use Rattle.std.specs.Prelude.{◌≡◌, ℕ, ◌<◌, ◌≤◌, ◌↔◌, IsTrue, [], ◌∷◌, ◌++◌, length, IfOk};
ghost use Rattle.hls_guarantee.specs.Cap.{ListKeepsCap};
ghost use Rattle.hls_guarantee.specs.Limits.{IsValid};
ghost use Rattle.hls_audit_watch.specs.Inside.Carried.{HasRate};
ghost use Rattle.hls_audit_watch.specs.Inside.Periods.{IsCapPeriodOf};

use crate::capping::{Excess, is_capped};
use crate::recent::Recent;
use hls_chron::parts;
use hls_guarantee::Guarantee;
use std::alloc::{AllocError, Global};
use std::marker::Model;

/// Whether a list of served and unserved ticks, told tick by tick, keeps the cap of a guarantee so far.
#[derive(Drop)]
pub(crate) struct CapWatch {
    guarantee: Guarantee,
    ticks: u32,
    recent: Recent,
    excess: Excess,
    capped: bool,
}

impl Model for CapWatch {
    ghost use Rattle.hls_audit_watch.specs.Watched.{Watched};
    ghost use Rattle.hls_audit_watch.specs.Inside.Watching.{IsCapping};

    ghost Value = { Watched };

    ghost view = { λ w. record { guarantee = w.guarantee; ticks = w.ticks; list = w.recent.list } };

    ghost invariant = { λ w.
        IsCapping w.guarantee w.ticks w.recent.period w.excess w.capped w.recent.list };
}

/// From how many ticks back the service has to be known, in a list of at most so many ticks.
fn cap_period_of(guarantee: &Guarantee, ticks: u32) -> u32
    requires valid { IsValid guarantee.now }
    requires few { ticks ≤ longest_horizon }
    ensures some { 1 ≤ result }
    ensures period { (n : ℕ) → n ≤ ticks → IsCapPeriodOf guarantee.now result n }
{
    match *guarantee {
        Guarantee::Resc { y, .. } => y.min(ticks + 1),
        _ => 1,
    }
}

/// What each tick pays.
fn rate_of(guarantee: &Guarantee) -> u128
    ensures { HasRate guarantee.now result }
{
    match *guarantee {
        Guarantee::Resb { x, y, .. } => parts(x, y),
        _ => 0,
    }
}

impl CapWatch {
    /// A watch to which nothing is told yet. It takes all its room.
    pub(crate) fn new(
        alloc: Global,
        guarantee: &Guarantee,
        ticks: u32,
    ) -> Result<CapWatch, AllocError>
        requires valid { IsValid guarantee.now }
        requires few { ticks ≤ longest_horizon }
        ensures { IfOk result (λ w. w ≡ record { guarantee = guarantee.now; ticks = ticks; list = [] }) }
    {
        let period = cap_period_of(guarantee, ticks);
        let recent = Recent::new(alloc, period)?;
        let rate = rate_of(guarantee);
        Ok(CapWatch {
            guarantee: *guarantee,
            ticks,
            recent,
            excess: Excess { rate, had: 0 },
            capped: true,
        })
    }

    /// Tells one tick more, which is served or is not.
    pub(crate) fn push(&mut self, served: bool)
        requires { length self.old.list < self.old.ticks }
        ensures { self.new ≡ record self.old { list = self.old.list ++ served ∷ [] } }
    {
        self.capped = is_capped(
            self.capped,
            &self.guarantee,
            &self.recent,
            &mut self.excess,
            served,
        );
        self.recent.push(served);
    }

    /// Whether the ticks so far keep the cap of the guarantee.
    pub(crate) fn capped(&self) -> bool
        ensures { IsTrue result ↔ ListKeepsCap self.now.guarantee self.now.list }
    {
        self.capped
    }

    /// Begins anew, as if nothing were told yet, with the room that there is.
    pub(crate) fn restart(&mut self)
        ensures { self.new ≡ record self.old { list = [] } }
    {
        self.recent.restart();
        self.excess.had = 0;
        self.capped = true;
    }
}
