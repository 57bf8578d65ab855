// A list of served and unserved ticks, watched tick by tick.
ghost use Rattle.hls_chron.specs.Ranges.{longest_horizon};
ghost use Rattle.std.specs.Prelude.{◌≡◌, ◌<◌, ◌≤◌, ◌↔◌, IsTrue, [], ◌∷◌, ◌++◌, length, IfOk};
ghost use Rattle.hls_guarantee.specs.Cap.{ListKeepsCap};
ghost use Rattle.hls_guarantee.specs.Limits.{IsValid};
ghost use Rattle.hls_guarantee.specs.Satisfaction.{ListSatisfies};

use crate::capped::CapWatch;
use crate::kept::KeptWatch;
use hls_guarantee::Guarantee;
use std::alloc::{AllocError, Global};
use std::marker::Model;

/// Whether a list of served and unserved ticks, told tick by tick, satisfies a guarantee so far and keeps its cap.
/// Contracts see the guarantee, the most ticks that may be told, and the list so far.
#[derive(Drop)]
pub struct Watch {
    kept: KeptWatch,
    capped: CapWatch,
}

impl Model for Watch {
    ghost use Rattle.std.specs.Prelude.{◌≡◌};
    ghost use Rattle.hls_audit_watch.specs.Watched.{Watched};

    ghost Value = { Watched };

    ghost view = { λ w. w.kept };

    ghost invariant = { λ w. w.capped ≡ w.kept };
}

impl Watch {
    /// A watch to which nothing is told yet. It takes all its room.
    ///
    /// # Errors
    /// Returns `AllocError` where there is no memory for it.
    pub fn new(alloc: Global, guarantee: &Guarantee, ticks: u32) -> Result<Watch, AllocError>
        requires valid { IsValid guarantee.now }
        requires few { ticks ≤ longest_horizon }
        ensures { IfOk result (λ w. w ≡ record { guarantee = guarantee.now; ticks = ticks; list = [] }) }
    {
        let kept = KeptWatch::new(alloc, guarantee, ticks)?;
        let capped = CapWatch::new(alloc, guarantee, ticks)?;
        Ok(Watch { kept, capped })
    }

    /// Tells one tick more, which is served or is not. Takes no memory.
    pub fn push(&mut self, served: bool)
        requires { length self.old.list < self.old.ticks }
        ensures { self.new ≡ record self.old { list = self.old.list ++ served ∷ [] } }
    {
        self.kept.push(served);
        self.capped.push(served);
    }

    /// Whether the ticks so far satisfy the guarantee.
    pub fn kept(&self) -> bool
        ensures { IsTrue result ↔ ListSatisfies self.now.guarantee self.now.list }
    {
        self.kept.kept()
    }

    /// Whether the ticks so far keep the cap of the guarantee.
    pub fn capped(&self) -> bool
        ensures { IsTrue result ↔ ListKeepsCap self.now.guarantee self.now.list }
    {
        self.capped.capped()
    }

    /// Begins anew, as if nothing were told yet, with the room that there is. Takes no memory.
    pub fn restart(&mut self)
        ensures { self.new ≡ record self.old { list = [] } }
    {
        self.kept.restart();
        self.capped.restart();
    }
}
