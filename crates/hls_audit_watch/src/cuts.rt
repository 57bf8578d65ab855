// The pieces of a list at each offset.
ghost use Rattle.std.specs.Prelude.{◌≡◌, ℕ, ◌+◌, ◌%◌, ◌<◌, ◌≤◌, ◌↔◌, IsTrue, Bool, true, false, [], ◌∷◌, ◌++◌};
ghost use Rattle.std.specs.Prelude.{length, slice_index_or};
ghost use Rattle.hls_guarantee.specs.declared.Guarantee.TheVariants.{Resb};
ghost use Rattle.hls_guarantee.specs.Limits.{IsReservation};
ghost use Rattle.hls_guarantee.specs.Satisfaction.{ListSatisfies};
ghost use Rattle.hls_audit_watch.specs.Inside.Cuts.{IsReservedSince, AreCuts, AreCutting};
ghost use Rattle.hls_audit_watch.specs.Inside.Periods.{IsPeriod};

use crate::recent::{Recent, next_place, service};
use crate::reservation::Reservation;

/// At which offsets some piece of the list is broken. Of the pieces that end with the list, those that begin before
/// `from` are; each offset before `free` is broken. `place` is that of `from`.
#[derive(Drop)]
pub(crate) struct Cuts {
    pub(crate) from: u32,
    pub(crate) place: u32,
    pub(crate) broken: Vec<bool>,
    pub(crate) free: u32,
}

impl Cuts {
    /// Cuts the list before the tick that comes next.
    fn begin(&mut self, reservation: &Reservation, recent: &Recent)
        requires range { IsReservation reservation.now.x reservation.now.y }
        requires room { length self.old.broken.items ≡ recent.now.period }
        requires placed { self.old.place ≡ self.old.from % recent.now.period }
        requires cuts { AreCuts reservation.now.hard reservation.now.x reservation.now.y recent.now.period
            self.old.from self.old.broken.items self.old.free recent.now.list }
        ensures placed { self.new.place ≡ self.new.from % recent.now.period }
        ensures cutting { (b : Bool) →
            AreCutting reservation.now.hard reservation.now.x reservation.now.y recent.now.period
            self.new.from self.new.broken.items self.new.free recent.now.list b }
        ensures room { length self.new.broken.items ≡ recent.now.period }
    {
        let at = recent.len();
        let period = recent.period();
        if at < period {
            self.broken[at as usize] = 0 < self.from;
        } else if self.from + period <= at {
            self.place = next_place(self.place, period);
            self.from += 1;
        }
    }

    /// Marks the offsets of the pieces that the tick breaks.
    fn mark_lost(&mut self, reservation: &Reservation, recent: &Recent, served: bool)
        requires range { IsReservation reservation.now.x reservation.now.y }
        requires room { length self.old.broken.items ≡ recent.now.period }
        requires period { recent.now.period ≤ reservation.now.y }
        requires placed { self.old.place ≡ self.old.from % recent.now.period }
        requires cutting { AreCutting reservation.now.hard reservation.now.x reservation.now.y recent.now.period
            self.old.from self.old.broken.items self.old.free recent.now.list served }
        ensures placed { self.new.place ≡ self.new.from % recent.now.period }
        ensures cutting { AreCutting reservation.now.hard reservation.now.x reservation.now.y recent.now.period
            self.new.from self.new.broken.items self.new.free recent.now.list served }
        ensures since { self.new.from ≤ length recent.now.list →
            IsReservedSince reservation.now.hard reservation.now.x reservation.now.y
            (recent.now.list ++ served ∷ []) self.new.from }
        ensures room { length self.new.broken.items ≡ recent.now.period }
    {
        let at = recent.len();
        let period = recent.period();
        while self.from <= at {
            let got = recent.since(self.from, self.place) + service(served);
            if reservation.is_met(at + 1 - self.from, got) {
                return;
            }
            self.broken[self.place as usize] = true;
            self.place = next_place(self.place, period);
            self.from += 1;
        }
    }

    /// Goes on to the first offset that is not broken, of so many.
    fn skip_broken(&mut self, most: u32)
        requires room { most ≤ length self.old.broken.items }
        requires within { self.old.free ≤ most }
        requires passed { (e : ℕ) → e < self.old.free → slice_index_or self.old.broken.items e false ≡ true }
        ensures same { self.new ≡ record self.old { free = self.new.free } }
        ensures within { self.new.free ≤ most }
        ensures passed { (e : ℕ) → e < self.new.free → slice_index_or self.new.broken.items e false ≡ true }
        ensures stops { self.new.free < most → slice_index_or self.new.broken.items self.new.free false ≡ false }
    {
        while self.free < most && self.broken[self.free as usize] {
            self.free += 1;
        }
    }

    /// Takes one tick more in, and tells whether some offset is not broken.
    pub(crate) fn push(&mut self, reservation: &Reservation, recent: &Recent, served: bool) -> bool
        requires range { IsReservation reservation.now.x reservation.now.y }
        requires room { length self.old.broken.items ≡ recent.now.period }
        requires period { IsPeriod reservation.now.y recent.now.period (length recent.now.list + 1) }
        requires placed { self.old.place ≡ self.old.from % recent.now.period }
        requires cuts { AreCuts reservation.now.hard reservation.now.x reservation.now.y recent.now.period
            self.old.from self.old.broken.items self.old.free recent.now.list }
        ensures kept { IsTrue result ↔
            ListSatisfies (Resb reservation.now.hard reservation.now.x reservation.now.y)
            (recent.now.list ++ served ∷ []) }
        ensures room { length self.new.broken.items ≡ recent.now.period }
        ensures placed { self.new.place ≡ self.new.from % recent.now.period }
        ensures cuts { AreCuts reservation.now.hard reservation.now.x reservation.now.y recent.now.period
            self.new.from self.new.broken.items self.new.free (recent.now.list ++ served ∷ []) }
    {
        self.begin(reservation, recent);
        self.mark_lost(reservation, recent, served);
        let most = (recent.len() + 1).min(recent.period());
        self.skip_broken(most);
        self.free < most
    }
}
