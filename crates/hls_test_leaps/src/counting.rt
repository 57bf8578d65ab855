// A box that counts the calls by which ticks pass.
ghost use Rattle.hls_chron.specs.declared.plain.Kind.{Kind};
ghost use Rattle.hls_sched.specs.Seen.{IsBlank};
ghost use Rattle.hls_box.proofs.Choosing.{lawful};

use hls_chron::{Book, Config, Kind, Terms};
use hls_fp::Fp;
use hls_kinds::SeatFault;
use hls_sched::Scheduler;
use std::alloc::{AllocError, Global};
use std::cell::Cell;
use std::rc::Rc;

/// A scheduler of fixed priority that counts its calls of `turn` and of `leap`.
#[derive(Drop)]
pub struct Counted {
    inner: Fp,
    calls: Rc<Cell<u32>>,
}

impl Counted {
    /// A box that is not set up yet, which counts its calls in this cell.
    pub fn blank(alloc: Global, calls: Rc<Cell<u32>>) -> Counted
        ensures { IsBlank Kind.Fp (⟦<Counted as Scheduler>⟧.seen result) }
    {
        Counted {
            inner: Fp::blank(alloc),
            calls,
        }
    }

    /// Counts one call more.
    fn count(&self) {
        self.calls.set(self.calls.get().saturating_add(1));
    }
}

impl Scheduler for Counted {
    ghost seen = { λ s. ⟦<Fp as Scheduler>⟧.seen s.inner };

    ghost choice = { λ s. ⟦<Fp as Scheduler>⟧.choice s.inner };

    ghost lawful = { λ s configured. lawful Kind.Fp s.inner.state s.inner.sound configured };

    fn kind(&self) -> Kind {
        self.inner.kind()
    }

    fn book(&self) -> &Book {
        self.inner.book()
    }

    fn setup(
        &mut self,
        config: &Config,
        now: u32,
        horizon: u32,
        commands: u32,
    ) -> Result<(), AllocError> {
        self.inner.setup(config, now, horizon, commands)
    }

    fn fits(&self, terms: &Terms) -> Option<SeatFault> {
        self.inner.fits(terms)
    }

    fn free_slot(&self) -> Option<u32> {
        self.inner.free_slot()
    }

    fn seat(&mut self, slot: u32, terms: &Terms) {
        self.inner.seat(slot, terms);
    }

    fn leave(&mut self, slot: u32) {
        self.inner.leave(slot);
    }

    fn request(&mut self, slot: u32) {
        self.inner.request(slot);
    }

    fn release(&mut self, slot: u32) {
        self.inner.release(slot);
    }

    fn asks(&self) -> bool {
        self.inner.asks()
    }

    fn grant(&mut self, port: u8) {
        self.inner.grant(port);
    }

    fn revoke(&mut self) {
        self.inner.revoke();
    }

    fn choice(&self) -> Option<u32> {
        self.inner.choice()
    }

    fn turn(&mut self) {
        self.count();
        self.inner.turn();
    }

    fn stands(&self) -> u32 {
        self.inner.stands()
    }

    fn leap(&mut self, ticks: u32) {
        self.count();
        self.inner.leap(ticks);
    }

    fn settle(&mut self) {
        self.inner.settle();
    }

    fn parts_used(&self) -> u128 {
        self.inner.parts_used()
    }
}
