// A list of served and unserved ticks, watched tick by tick for what is guaranteed.
ghost use Rattle.hls_chron.specs.Ranges.{longest_horizon};
ghost use Rattle.std.specs.Prelude.{◌≡◌, ℕ, ◌<◌, ◌≤◌, ◌↔◌, IsTrue, [], ◌∷◌, ◌++◌, length, IfOk};
ghost use Rattle.hls_guarantee.specs.Limits.{IsValid};
ghost use Rattle.hls_guarantee.specs.Satisfaction.{ListSatisfies};
ghost use Rattle.hls_audit_watch.specs.Inside.Carried.{HasPlaces};
ghost use Rattle.hls_audit_watch.specs.Inside.Periods.{IsPeriodOf};

use crate::cuts::Cuts;
use crate::keeping::is_kept;
use crate::recent::Recent;
use hls_guarantee::Guarantee;
use std::alloc::{AllocError, Global};
use std::marker::Model;

/// Whether a list of served and unserved ticks, told tick by tick, satisfies a guarantee so far.
#[derive(Drop)]
pub(crate) struct KeptWatch {
    guarantee: Guarantee,
    ticks: u32,
    recent: Recent,
    debt: u128,
    cuts: Cuts,
    kept: bool,
}

impl Model for KeptWatch {
    ghost use Rattle.hls_audit_watch.specs.Watched.{Watched};
    ghost use Rattle.hls_audit_watch.specs.Inside.Watching.{IsKeeping};

    ghost Value = { Watched };

    ghost view = { λ w. record { guarantee = w.guarantee; ticks = w.ticks; list = w.recent.list } };

    ghost invariant = { λ w.
        IsKeeping w.guarantee w.ticks w.recent.period w.debt w.cuts w.kept w.recent.list };
}

/// From how many ticks back the service has to be known, in a list of at most so many ticks.
fn period_of(guarantee: &Guarantee, ticks: u32) -> u32
    requires valid { IsValid guarantee.now }
    requires few { ticks ≤ longest_horizon }
    ensures some { 1 ≤ result }
    ensures period { (n : ℕ) → n ≤ ticks → IsPeriodOf guarantee.now result n }
{
    match *guarantee {
        Guarantee::Resb { y, .. } | Guarantee::Resc { y, .. } => y.min(ticks + 1),
        _ => 1,
    }
}

/// How many offsets are told apart.
fn places_of(guarantee: &Guarantee, period: u32) -> u32
    ensures { HasPlaces guarantee.now period result }
{
    match *guarantee {
        Guarantee::Resb { .. } => period,
        _ => 0,
    }
}

impl KeptWatch {
    /// A watch to which nothing is told yet. It takes all its room.
    pub(crate) fn new(
        alloc: Global,
        guarantee: &Guarantee,
        ticks: u32,
    ) -> Result<KeptWatch, AllocError>
        requires valid { IsValid guarantee.now }
        requires few { ticks ≤ longest_horizon }
        ensures { IfOk result (λ w. w ≡ record { guarantee = guarantee.now; ticks = ticks; list = [] }) }
    {
        let period = period_of(guarantee, ticks);
        let places = places_of(guarantee, period);
        let recent = Recent::new(alloc, period)?;
        let broken = vec![in alloc; false; places as usize]?;
        Ok(KeptWatch {
            guarantee: *guarantee,
            ticks,
            recent,
            debt: 0,
            cuts: Cuts {
                from: 0,
                place: 0,
                broken,
                free: 0,
            },
            kept: true,
        })
    }

    /// Tells one tick more, which is served or is not.
    pub(crate) fn push(&mut self, served: bool)
        requires { length self.old.list < self.old.ticks }
        ensures { self.new ≡ record self.old { list = self.old.list ++ served ∷ [] } }
    {
        self.kept = is_kept(
            self.kept,
            &self.guarantee,
            &self.recent,
            &mut self.debt,
            &mut self.cuts,
            served,
        );
        self.recent.push(served);
    }

    /// Whether the ticks so far satisfy the guarantee.
    pub(crate) fn kept(&self) -> bool
        ensures { IsTrue result ↔ ListSatisfies self.now.guarantee self.now.list }
    {
        self.kept
    }

    /// Begins anew, as if nothing were told yet, with the room that there is.
    pub(crate) fn restart(&mut self)
        ensures { self.new ≡ record self.old { list = [] } }
    {
        self.recent.restart();
        self.debt = 0;
        self.cuts.from = 0;
        self.cuts.place = 0;
        self.cuts.free = 0;
        self.kept = true;
    }
}
