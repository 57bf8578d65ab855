// The stays of threads.
ghost use Rattle.std.specs.Prelude.{◌≡◌, ◌+◌, ◌<◌, ◌≤◌, ◌++◌, ◌^◌, ℕ, Bool, true, OnOk, Option, Some, [], ◌∷◌};
ghost use Rattle.std.specs.Prelude.{List, length};
ghost use Rattle.hls_machine.specs.Hierarchy.{Hierarchy, Stay, Wake, start};
ghost use Rattle.hls_machine.specs.Legal.{IsThread};
ghost use Rattle.hls_machine.specs.Steps.{Step, Path, after, stay_of, with_wake};
ghost use Rattle.hls_scenario.specs.declared.scenario.Command.{Command};
ghost use Rattle.hls_tree_nodes.specs.Leapt.{later};
ghost use Rattle.hls_tree.specs.Trees.{IsTreeOf, IsReadyOf, Stands, ready_of};
ghost use Rattle.hls_core_stays.specs.Tallies.{AreStays, AreTallies, HasSpare, IsNoted, waited, opened_at};
ghost use Rattle.hls_core_stays.specs.Turnovers.{stays_begun};
ghost use Rattle.hls_core_stays.specs.Changes.{Turns, MayTurn, Ticks, MayTick, Releases, MayRelease, flagged};
ghost use Rattle.hls_core_stays.specs.Inside.Steps.{HasOpen, HasNone, MayClose, without};
ghost use Rattle.hls_core_stays.specs.Inside.Renewals.{AreRenewable, renewed_one, renewed_all, IsLike};
ghost use Rattle.hls_core_stays.specs.Inside.Renewals.{IsRousing, MayNote};
ghost use Rattle.hls_core_stays.specs.Inside.Renewals.{AreInAll, AreRenewed, HasAlike};

use crate::Turnover;
use crate::places::Places;
use crate::tallies::Tallies;
use crate::tally::Tally;
use hls_tree::{NodeId, Tree};
use std::alloc::{AllocError, Global};

/// The stays of threads so far, in the order in which they were opened, with how many of their ticks each
/// thread was ready and was served; and how many ticks were idle. Those that ended in the tick in which they
/// began are dropped: soon, where there are many, and else before the next tick.
#[derive(Drop)]
pub struct Stays {
    pub(crate) tallies: Tallies,
    pub(crate) places: Places,
    pub(crate) idle: u32,
    /// The place from which on the stays began in the present tick, and how many of these have ended. Only how
    /// soon stays are dropped rests on the two.
    pub(crate) fresh: usize,
    pub(crate) spent: usize,
}

/// Since when a thread is ready, where it is ready from now on.
fn ready_since(tree: &Tree, id: NodeId) -> Option<u32>
    ensures noted { (h : Hierarchy) → IsTreeOf seen tree.now h → IsReadyOf seen tree.now h → IsNoted h id result }
    ensures begun { (h : Hierarchy) → IsTreeOf seen tree.now h → waited h.now result ≡ 0 }
{
    if tree.is_ready(id) {
        Some(tree.now())
    } else {
        None
    }
}

impl Stays {
    /// No stays yet.
    pub fn new(alloc: Global) -> Stays
        ensures { AreStays result start }
    {
        Stays {
            tallies: Tallies::new(alloc),
            places: Places::new(alloc),
            idle: 0,
            fresh: 0,
            spent: 0,
        }
    }

    /// Drops the stays that began and ended in the present tick, where there are more than so many.
    fn drop_spent(&mut self, most: usize)
        ensures { (h : Hierarchy) → AreStays self.old h → AreStays self.new h }
    {
        if self.spent > most {
            self.tallies.sweep(&mut self.places, self.fresh);
            self.spent = 0;
        }
    }

    /// Drops the stays that began and ended in the tick that has passed.
    fn settle(&mut self)
        ensures { (h : Hierarchy) → AreStays self.old h → AreStays self.new h }
    {
        self.drop_spent(0);
        self.fresh = self.tallies.len();
    }

    /// Makes room for the stays that a command will begin.
    ///
    /// # Errors
    /// Returns `AllocError` for want of memory, and then the stays are as before.
    pub fn reserve(&mut self, turnover: &Turnover) -> Result<(), AllocError>
        ensures room { OnOk result (HasSpare self.new (stays_begun turnover.now)) }
        ensures same { (h : Hierarchy) → AreStays self.old h → AreStays self.new h }
    {
        let fresh = self.tallies.len().saturating_sub(self.fresh);
        self.drop_spent(fresh - fresh / 8);
        self.tallies.reserve(turnover.begun())?;
        self.places.reserve(self.tallies.len())
    }

    /// The place of the last stay of a thread: a guess.
    fn last_place(&self, id: NodeId) -> usize {
        self.places.guess(id)
    }

    /// The place of the open stay of a thread.
    fn place(&self, id: NodeId) -> usize
        ensures { (at : ℕ) → opened_at self.now.tallies.items at id ≡ true →
            opened_at self.now.tallies.items result id ≡ true }
    {
        let guess = self.last_place(id);
        if self.tallies.is_open_at(guess, id) {
            return guess;
        }
        self.tallies.search(id)
    }

    /// Ends the open stay of a thread, and tells its place.
    fn close(&mut self, id: NodeId, now: u32) -> usize
        requires { MayClose self.old id }
        ensures closed { (h : Hierarchy) (stays : List Stay) → h.now ≡ now → AreTallies self.old h stays →
            HasOpen stays id → AreTallies self.new h (without h.now id stays) }
        ensures found { (at : ℕ) → opened_at self.old.tallies.items at id ≡ true →
            opened_at self.old.tallies.items result id ≡ true }
        ensures within { result < length self.new.tallies.items }
        ensures spare { self.new.tallies.spare ≡ self.old.tallies.spare }
    {
        let place = self.place(id);
        self.tallies.close_at(place, now);
        self.spent = self.spent.saturating_add(usize::from(place >= self.fresh));
        place
    }

    /// Whether the stay at a place has the name and the guarantee of a thread.
    fn is_like(&self, tree: &Tree, id: NodeId, like: usize) -> bool
        requires { Stands seen tree.now (λ h. IsThread (h.nodes id)) }
        ensures { result ≡ true → IsLike seen self.now tree.now id like }
    {
        match self.tallies.seating(like) {
            Some(seating) => tree.keeps(id, &seating.name, &seating.kept),
            None => false,
        }
    }

    /// Begins a stay of a thread that has none that is open, into room that is there. Where the stay at that
    /// place has the same name and guarantee, the two share them.
    fn open(&mut self, tree: &Tree, id: NodeId, like: usize)
        requires thread { Stands seen tree.now (λ h. IsThread (h.nodes id)) }
        requires room { HasSpare self.old 1 }
        ensures opened { (h : Hierarchy) (stays : List Stay) → IsTreeOf seen tree.now h → IsReadyOf seen tree.now h →
            IsThread (h.nodes id) → AreTallies self.old h stays → HasNone stays id →
            AreTallies self.new h (stays ++ stay_of h.now id (h.nodes id)) }
        ensures spare { self.old.tallies.spare ≤ self.new.tallies.spare + 1 }
    {
        let place = self.tallies.len();
        if self.is_like(tree, id, like) {
            self.tallies
                .push_like(like, id, tree.now(), ready_since(tree, id));
        } else {
            let tally = Tally {
                thread: id,
                name: *tree.name(id),
                kept: tree.kept(id, 0),
                since: tree.now(),
                until: None,
                ready: 0,
                ready_since: ready_since(tree, id),
                served: 0,
            };
            self.tallies.push(tally);
        }
        self.places.put(id, place);
    }

    /// Ends the open stay of a thread that was moved, and begins another.
    fn reseat(&mut self, tree: &Tree, id: NodeId)
        requires thread { Stands seen tree.now (λ h. IsThread (h.nodes id)) }
        requires room { HasSpare self.old 1 }
        requires close { MayClose self.old id }
        ensures { (h : Hierarchy) (stays : List Stay) → IsTreeOf seen tree.now h → IsReadyOf seen tree.now h →
            IsThread (h.nodes id) → AreTallies self.old h stays → HasOpen stays id →
            AreTallies self.new h (renewed_one h stays id) }
    {
        let place = self.close(id, tree.now());
        self.open(tree, id, place);
    }

    /// Ends the open stay of a thread, and begins another with the same name and guarantee.
    fn renew(&mut self, tree: &Tree, id: NodeId)
        requires room { HasSpare self.old 1 }
        requires close { MayClose self.old id }
        ensures renewed { (h : Hierarchy) (stays : List Stay) → IsTreeOf seen tree.now h →
            IsReadyOf seen tree.now h → AreTallies self.old h stays → HasAlike h stays id →
            AreTallies self.new h (renewed_one h stays id) }
        ensures spare { self.old.tallies.spare ≤ self.new.tallies.spare + 1 }
    {
        let now = tree.now();
        let place = self.tallies.len();
        let like = self.close(id, now);
        self.tallies.push_like(like, id, now, ready_since(tree, id));
        self.places.put(id, place);
    }

    /// Ends the open stays of threads, and begins others with the same names and guarantees.
    fn renew_each(&mut self, tree: &Tree, ids: &[NodeId])
        requires may { Stands seen tree.now (λ h. IsReadyOf seen tree.now h ×
            ((stays : List Stay) × AreRenewable self.old h stays ids.now)) }
        requires room { HasSpare self.old (length ids.now) }
        ensures { (h : Hierarchy) (stays : List Stay) → IsTreeOf seen tree.now h → IsReadyOf seen tree.now h →
            AreRenewable self.old h stays ids.now → AreTallies self.new h (renewed_all h stays ids.now) }
    {
        for id in ids {
            self.renew(tree, *id);
        }
    }

    /// Whether the last stays are open ones of these threads, in their order, that began in the present tick.
    fn are_renewed(&self, ids: &[NodeId], now: u32) -> bool
        ensures { result ≡ true → AreRenewed self.now ids.now now }
    {
        if self.tallies.len() < ids.len() {
            return false;
        }
        let first = self.tallies.len() - ids.len();
        for at in 0..ids.len() {
            if !self.tallies.is_fresh_at(first + at, ids[at], now) {
                return false;
            }
        }
        true
    }

    /// Ends the open stays of threads, and begins others with the same names and guarantees. Where the same stays
    /// would begin again, nothing is done: those that ended would have lasted no tick.
    fn renew_all(&mut self, tree: &Tree, ids: &[NodeId])
        requires may { Stands seen tree.now (λ h. IsReadyOf seen tree.now h ×
            ((stays : List Stay) × AreRenewable self.old h stays ids.now)) }
        requires room { HasSpare self.old (length ids.now) }
        ensures { (h : Hierarchy) (stays : List Stay) → IsTreeOf seen tree.now h → IsReadyOf seen tree.now h →
            AreRenewable self.old h stays ids.now → AreInAll self.new h (renewed_all h stays ids.now) }
    {
        if !self.are_renewed(ids, tree.now()) {
            self.renew_each(tree, ids);
        }
    }

    /// Begins the stay of the thread that was admitted last.
    fn begin(&mut self, tree: &Tree)
        requires thread { Stands seen tree.now (λ h. (k : ℕ) × (front : List ℕ) ×
            (h.threads ≡ front ++ k ∷ [])) }
        requires room { HasSpare self.old 1 }
        ensures { (h : Hierarchy) (stays : List Stay) (front : List ℕ) (k : ℕ) → IsTreeOf seen tree.now h →
            IsReadyOf seen tree.now h → IsThread (h.nodes k) → h.threads ≡ front ++ k ∷ [] →
            AreTallies self.old h stays → HasNone stays k →
            AreTallies self.new h (stays ++ stay_of h.now k (h.nodes k)) }
    {
        let last = tree.threads() - 1;
        let id = tree.thread(last);
        let like = self.last_place(id);
        self.open(tree, id, like);
    }

    /// Notes whether a thread that was woken or blocked, or whose wake has a release, is ready from now on.
    fn note(&mut self, tree: &Tree, id: NodeId)
        requires { MayNote seen self.old tree.now id }
        ensures { (h : Hierarchy) (how : Wake) → IsRousing seen self.old tree.now h id how →
            AreStays self.new (with_wake h id how) }
    {
        let place = self.place(id);
        self.tallies.note_at(place, tree.is_ready(id), tree.now());
    }

    /// Ends and begins stays, after a command was carried out, into room that is there.
    pub fn follow(&mut self, tree: &Tree, turnover: Turnover)
        requires may { MayTurn seen self.old tree.now turnover }
        requires room { HasSpare self.old (stays_begun turnover) }
        ensures { (h : Hierarchy) (command : Command) (step : Step) →
            Turns seen self.old tree.now turnover h command step → AreStays self.new (after h step) }
    {
        match turnover {
            Turnover::Nothing => {}
            Turnover::Begins => self.begin(tree),
            Turnover::Ends(id) => {
                self.close(id, tree.now());
            }
            Turnover::Reseats(id) => self.reseat(tree, id),
            Turnover::Renews(ids) => self.renew_all(tree, &ids),
            Turnover::Rouses(id) => self.note(tree, id),
        }
    }

    /// Counts so many ticks in which this thread was served, and notes whether it is ready from now on.
    fn serve(&mut self, tree: &Tree, id: NodeId, ticks: u32)
        requires { MayTick seen self.old tree.now (Some id) ticks }
        ensures { (h : Hierarchy) (asking : ℕ → Bool) (masks : ℕ → ℕ) (path : Option Path) →
            Ticks seen self.old tree.now (Some id) ticks h asking masks path →
            AreStays self.new (flagged (ready_of seen tree.now) (later h asking masks path ticks)) }
    {
        let place = self.place(id);
        self.tallies
            .serve_at(place, ticks, tree.is_ready(id), tree.now());
    }

    /// Counts so many ticks that have elapsed, in which this thread was served, or none. Releases in the
    /// present tick come after it.
    pub fn tick(&mut self, tree: &Tree, thread: Option<NodeId>, ticks: u32)
        requires { MayTick seen self.old tree.now thread ticks }
        ensures { (h : Hierarchy) (asking : ℕ → Bool) (masks : ℕ → ℕ) (path : Option Path) →
            Ticks seen self.old tree.now thread ticks h asking masks path →
            AreStays self.new (flagged (ready_of seen tree.now) (later h asking masks path ticks)) }
    {
        self.settle();
        match thread {
            Some(id) => self.serve(tree, id, ticks),
            None => self.idle += ticks,
        }
    }

    /// Notes that a thread whose wake has a release in the present tick is ready from now on.
    pub fn release(&mut self, tree: &Tree, id: NodeId)
        requires { MayRelease seen self.old tree.now id }
        ensures { (h : Hierarchy) (flag : ℕ → Bool) → Releases seen self.old tree.now id h flag →
            AreStays self.new (flagged (ready_of seen tree.now) h) }
    {
        self.note(tree, id);
    }
}
