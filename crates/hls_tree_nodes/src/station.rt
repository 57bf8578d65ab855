// A box, beside what it was told.
ghost use Rattle.std.specs.Prelude.{◌≡◌, ◌≢◌, ◌<◌, ◌^◌, true, None, IfSome, IsNone, ◌↔◌, bit_and, false};
ghost use Rattle.std.specs.Prelude.{get_or, slice_set};
ghost use Rattle.hls_chron.specs.Ranges.{TermsInRange, most_slots};
ghost use Rattle.hls_chron.specs.Seats.{terms_at};
ghost use Rattle.hls_kinds.specs.Asks.{slot_asks};
ghost use Rattle.hls_kinds.specs.Discipline.{Serves};
ghost use Rattle.hls_sched.specs.Seen.{config_of, IsConfigured, IsLawful, seen_asks, requested, released, leapt};
ghost use Rattle.hls_kinds.specs.Faults.{IsFirstFault};
ghost use Rattle.hls_tree_nodes.specs.Shown.{HasNoFault, IsPosted, IsTold, post_granted, post_freed, post_revoked};
ghost use Rattle.hls_tree_nodes.specs.Behind.{LagsRight, late_post, lag_place, with_lag};
ghost use Rattle.hls_tree_nodes.specs.Shown.{post_seated, post_left, post_settled, MaySit};
ghost use Rattle.hls_kinds.specs.Room.{IsFree, IsFull};
ghost use Rattle.hls_tree_nodes.specs.Views.{post_of};
ghost use Rattle.std.specs.Prelude.{◌≤◌};
ghost use Rattle.hls_kinds.specs.Stands.{always, stands_idle};
ghost use Rattle.hls_sched.specs.Stands.{Stands, seen_stands};
ghost use Rattle.hls_tree_nodes.specs.Leapt.{post_leapt};

use crate::NodeId;
use hls_chron::{Config, Terms};
use hls_kinds::stands_idle;
use hls_sched::{ALWAYS, Scheduler, SeatFault};

/// That a box is behind: since which tick of the nodes' clock, and the place of its scheduler in the list.
#[derive(Clone, Copy, Debug)]
pub struct Lag {
    pub since: u32,
    pub at: u8,
}

/// A box that is set up, its configuration, the slots that it was told to ask, a bit each, whether it
/// is granted, whether it is behind, and who was seen last at each of its slots.
#[derive(Drop)]
pub struct Station {
    pub unit: Box<dyn Scheduler>,
    pub config: Config,
    pub mask: u32,
    pub granted: bool,
    pub lag: Option<Lag>,
    pub last_seen: [NodeId; 32],
}

/// The bit of a slot.
fn bit(slot: u32) -> u32
    requires { slot < most_slots }
    ensures { result ≡ 2 ^ slot }
{
    1 << slot
}

/// Whether a slot asks.
fn is_set(mask: u32, slot: u32) -> bool
    requires { slot < most_slots }
    ensures { result ≡ slot_asks mask slot }
{
    (mask >> slot) & 1 == 1
}

fn request(unit: &mut Box<dyn Scheduler>, slot: u32)
    requires configured { IsConfigured (seen unit.old) }
    requires taken { terms_at (seen unit.old).book slot ≢ None }
    requires silent { slot_asks (seen unit.old).mask slot ≡ false }
    ensures { seen unit.new ≡ requested slot (seen unit.old) }
{
    unit.request(slot);
}

fn release(unit: &mut Box<dyn Scheduler>, slot: u32)
    requires configured { IsConfigured (seen unit.old) }
    requires taken { terms_at (seen unit.old).book slot ≢ None }
    requires asking { slot_asks (seen unit.old).mask slot ≡ true }
    ensures { seen unit.new ≡ released slot (seen unit.old) }
{
    unit.release(slot);
}

fn free_slot(unit: &Box<dyn Scheduler>) -> Option<u32>
    requires configured { IsConfigured (seen unit.now) }
    ensures free { IfSome result (IsFree (config_of (seen unit.now)) (seen unit.now).book) }
    ensures full { IsNone result → IsFull (config_of (seen unit.now)) (seen unit.now).book }
{
    unit.free_slot()
}

/// Why a seat on these terms cannot be taken, if it cannot.
fn fits(unit: &dyn Scheduler, terms: &Terms) -> Option<SeatFault>
    requires configured { IsConfigured (seen unit.now) }
    requires ranges { TermsInRange terms.now }
    ensures some { IfSome result (IsFirstFault (config_of (seen unit.now)) (seen unit.now).book terms.now) }
    ensures none { IsNone result → HasNoFault (config_of (seen unit.now)) (seen unit.now).book terms.now }
{
    unit.fits(terms)
}

fn leap(unit: &mut Box<dyn Scheduler>, ticks: u32)
    requires configured { IsConfigured (seen unit.old) }
    requires some { 0 < ticks }
    requires stands { ticks ≤ seen_stands (choice unit.old) (seen unit.old) }
    requires room { ticks ≤ (seen unit.old).book.spare_ticks }
    ensures { seen unit.new ≡ leapt ticks (choice unit.old) (seen unit.old) }
{
    unit.leap(ticks);
}

/// So many ticks of a box that is not granted and stands always then.
fn leap_idle(unit: &mut Box<dyn Scheduler>, ticks: u32)
    requires configured { IsConfigured (seen unit.old) }
    requires idle { stands_idle (config_of (seen unit.old)) ≡ true }
    requires free { (seen unit.old).grant ≡ None }
    requires room { ticks ≤ (seen unit.old).book.spare_ticks }
    ensures { seen unit.new ≡ leapt ticks None (seen unit.old) }
{
    let mut left = ticks;
    while left != 0 {
        let step = left.min(ALWAYS);
        leap(unit, step);
        left -= step;
    }
}

impl Station {
    /// Whether it asks.
    pub fn asks(&self) -> bool
        requires posted { IsPosted (post_of seen self.now) }
        ensures { result ≡ seen_asks (seen self.now.unit) }
    {
        self.unit.asks()
    }

    /// Why a seat on these terms cannot be taken at present, if it cannot.
    pub fn fits(&self, terms: &Terms) -> Option<SeatFault>
        requires posted { IsPosted (post_of seen self.now) }
        requires ranges { TermsInRange terms.now }
        ensures some { IfSome result
            (IsFirstFault (config_of (seen self.now.unit)) (seen self.now.unit).book terms.now) }
        ensures none { IsNone result →
            HasNoFault (config_of (seen self.now.unit)) (seen self.now.unit).book terms.now }
    {
        fits(&*self.unit, terms)
    }

    /// Tells whether a seat asks, where that has changed.
    pub fn tell(&mut self, slot: u32, asks: bool)
        requires posted { IsPosted (post_of seen self.old) }
        requires taken { terms_at (seen self.old.unit).book slot ≢ None }
        requires within { slot < most_slots }
        ensures { IsTold slot asks (post_of seen self.old) (post_of seen self.new) }
    {
        let is_set = is_set(self.mask, slot);
        if asks {
            if !is_set {
                self.mask |= bit(slot);
                request(&mut self.unit, slot);
            }
        } else if is_set {
            self.mask &= !bit(slot);
            release(&mut self.unit, slot);
        }
    }

    /// Takes the processor back, if it has it.
    pub fn revoke(&mut self)
        requires posted { IsPosted (post_of seen self.old) }
        ensures revoked { post_of seen self.new ≡ post_freed (post_of seen self.old) }
    {
        if self.granted {
            self.unit.revoke();
            self.granted = false;
        }
    }

    /// The same, and forgets that it was behind.
    pub fn begin(&mut self)
        requires posted { IsPosted (post_of seen self.old) }
        ensures begun { post_of seen self.new ≡ post_revoked (post_of seen self.old) }
    {
        self.revoke();
        self.lag = None;
    }

    /// Catches up, if it is behind, and tells its place in the list.
    pub fn catch_up(&mut self, tick: u32) -> Option<u8>
        requires lags { LagsRight tick self.old.lag (post_of seen self.old) }
        ensures up { post_of seen self.new ≡ late_post true tick (post_of seen self.old) }
        ensures place { result ≡ lag_place self.old.lag }
    {
        match self.lag {
            Some(lag) => {
                leap_idle(&mut self.unit, tick - lag.since);
                self.lag = None;
                Some(lag.at)
            }
            None => None,
        }
    }

    /// Whether it is of a kind that stands always while it is not granted, and is neither granted nor behind.
    pub fn is_idle(&self) -> bool
        requires posted { IsPosted (post_of seen self.now) }
        ensures idle { result ≡ true → stands_idle (config_of (seen self.now.unit)) ≡ true }
        ensures free { result ≡ true → (seen self.now.unit).grant ≡ None }
        ensures up { result ≡ true → self.now.lag ≡ None }
    {
        !self.granted && self.lag.is_none() && stands_idle(&self.config)
    }

    /// Whether it is new to it that a seat asks, or does not.
    pub fn is_new(&self, slot: u32, asks: bool) -> bool
        requires posted { IsPosted (post_of seen self.now) }
        requires within { slot < most_slots }
        ensures old { result ≡ false → slot_asks (seen self.now.unit).mask slot ≡ asks }
    {
        is_set(self.mask, slot) != asks
    }

    /// Grants it through a port, and names the slot that it serves.
    pub fn grant(&mut self, port: u8) -> Option<u32>
        requires posted { IsPosted (post_of seen self.old) }
        requires asks { seen_asks (seen self.old.unit) ≡ true }
        requires free { (seen self.old.unit).grant ≡ None }
        ensures granted { post_of seen self.new ≡ post_granted port (post_of seen self.old) }
        ensures choice { choice self.new.unit ≡ choice self.old.unit }
        ensures value { result ≡ choice self.old.unit }
        ensures serves { IfSome result (Serves (config_of (seen self.old.unit))
            (seen self.old.unit).book (seen self.old.unit).mask) }
        ensures some { result ≢ None }
    {
        let slot = self.unit.choice();
        self.unit.grant(port);
        self.granted = true;
        slot
    }

    /// Who was seen last at a slot.
    pub fn last_at(&self, slot: u32) -> usize
        ensures { result ≡ get_or self.now.last_seen slot 0 }
    {
        match self.last_seen.get(slot as usize) {
            Some(id) => id.key(),
            None => 0,
        }
    }

    /// Notes who was seen at a slot.
    pub fn note(&mut self, slot: u32, id: NodeId)
        requires posted { IsPosted (post_of seen self.old) }
        ensures same { post_of seen self.new ≡ post_of seen self.old }
        ensures choice { choice self.new.unit ≡ choice self.old.unit }
        ensures noted { self.new.last_seen ≡ slice_set self.old.last_seen slot id }
    {
        if slot < 32 {
            self.last_seen[slot as usize] = id;
        }
    }

    /// So many ticks, one or as many as it stands.
    pub fn elapse(&mut self, ticks: u32)
        requires posted { IsPosted (post_of seen self.old) }
        requires some { 0 < ticks }
        requires stands { 1 < ticks → ticks ≤ seen_stands (choice self.old.unit) (seen self.old.unit) }
        requires room { ticks ≤ (seen self.old.unit).book.spare_ticks }
        ensures { post_of seen self.new ≡ post_leapt ticks (choice self.old.unit) (post_of seen self.old) }
    {
        if ticks == 1 {
            self.unit.turn();
        } else {
            self.unit.leap(ticks);
        }
    }

    /// Is behind from here on, where it may be: where it is of a kind that stands always while it is not granted, is
    /// not granted, and asks as it told.
    pub fn note_behind(&mut self, lag: Lag, told: bool) -> bool
        requires posted { IsPosted (post_of seen self.old) }
        ensures noted { result ≡ true → post_of seen self.new ≡ with_lag lag (post_of seen self.old) }
        ensures idle { result ≡ true → stands_idle (config_of (seen self.old.unit)) ≡ true }
        ensures free { result ≡ true → (seen self.old.unit).grant ≡ None }
        ensures up { result ≡ true → self.old.lag ≡ None }
        ensures asks { result ≡ true → seen_asks (seen self.old.unit) ≡ told }
        ensures lawful { result ≡ true → IsLawful (seen self.old.unit) }
        ensures none { result ≡ false → self.new ≡ self.old }
    {
        if self.is_idle() && self.asks() == told {
            self.unit.vouch();
            self.lag = Some(lag);
            return true;
        }
        false
    }

    /// For how many ticks from the present one on it asks as it does, and serves whom it serves.
    pub fn stands(&self) -> u32
        requires posted { IsPosted (post_of seen self.now) }
        ensures value { result ≡ seen_stands (choice self.now.unit) (seen self.now.unit) }
        ensures within { result ≤ always }
        ensures some { 0 < result }
        ensures law { Stands result (choice self.now.unit) (seen self.now.unit) }
    {
        self.unit.stands()
    }

    /// The same, where it may be behind: then it stands always.
    pub fn stands_late(&self, behind: bool) -> u32
        requires posted { IsPosted (post_of seen self.now) }
        ensures late { behind ≡ true → self.now.lag ≢ None → result ≡ always }
        ensures up { self.now.lag ≡ None → result ≡ seen_stands (choice self.now.unit) (seen self.now.unit) }
        ensures flat { behind ≡ false → result ≡ seen_stands (choice self.now.unit) (seen self.now.unit) }
        ensures within { result ≤ always }
        ensures some { 0 < result }
        ensures law { self.now.lag ≡ None → Stands result (choice self.now.unit) (seen self.now.unit) }
        ensures flat_law { behind ≡ false → Stands result (choice self.now.unit) (seen self.now.unit) }
    {
        if behind && self.lag.is_some() {
            return ALWAYS;
        }
        self.stands()
    }

    /// Takes the seat at the least free slot, which it names.
    pub fn seat(&mut self, terms: &Terms) -> u32
        requires posted { IsPosted (post_of seen self.old) }
        requires may { MaySit (post_of seen self.old) terms.now }
        ensures seated { post_of seen self.new ≡ post_seated result terms.now (post_of seen self.old) }
        ensures free { IsFree (config_of (seen self.old.unit)) (seen self.old.unit).book result }
    {
        match free_slot(&self.unit) {
            Some(slot) => {
                self.unit.seat(slot, terms);
                slot
            }
            None => unreachable!(),
        }
    }

    /// Leaves a seat.
    pub fn leave(&mut self, slot: u32)
        requires posted { IsPosted (post_of seen self.old) }
        requires taken { terms_at (seen self.old.unit).book slot ≢ None }
        requires within { slot < most_slots }
        requires room { 0 < (seen self.old.unit).book.spare_marks }
        ensures { post_of seen self.new ≡ post_left slot (post_of seen self.old) }
    {
        self.unit.leave(slot);
        self.mask &= !bit(slot);
    }

    /// Begins its accounts anew.
    pub fn settle(&mut self)
        requires posted { IsPosted (post_of seen self.old) }
        requires room { 0 < (seen self.old.unit).book.spare_marks }
        ensures { post_of seen self.new ≡ post_settled (post_of seen self.old) }
    {
        self.unit.settle();
    }
}
