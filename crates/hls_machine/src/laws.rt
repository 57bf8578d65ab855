//! What holds of legal runs: each function's contract is a law, and its body does nothing.

ghost use Rattle.std.specs.Prelude.{◌≡◌, ◌≢◌, ◌++◌, ◌∷◌, [], ℕ, List, Option, Some, None, Bool, true};
ghost use Rattle.std.specs.Prelude.{◌↔◌, false, All};
ghost use Rattle.hls_chron.specs.Ledger.{Ledger};
ghost use Rattle.hls_chron.specs.Ranges.{ConfigInRange};
ghost use Rattle.hls_chron.specs.Seats.{asked, served, terms_at};
ghost use Rattle.hls_kinds.specs.Asks.{asks, slot_asks};
ghost use Rattle.hls_kinds.specs.Discipline.{Serves, KeepsDiscipline};
ghost use Rattle.hls_derive.specs.Derives.{IsDerivation};
ghost use Rattle.hls_machine.specs.Derived.{Follows};
ghost use Rattle.hls_kinds.specs.Room.{IsFree, IsFull};
ghost use Rattle.hls_kinds.specs.Fits.{Fits, HasSeats};
ghost use Rattle.hls_kinds.specs.Made.{IsMade};
ghost use Rattle.hls_machine.specs.Ledgers.{with_marks};
ghost use Rattle.hls_machine.specs.Hierarchy.{Hierarchy, Scheduler, Loaded, Seat, start, was_served, had_asked};
ghost use Rattle.hls_machine.specs.Steps.{Path, Step, Move, Block, Elapse, leavings, after, state};
ghost use Rattle.hls_machine.specs.Legal.{asks_now, Can, IsBelow, IsLegal};
ghost use Rattle.hls_machine.specs.Linked.{config_at, book_at, IsLinked, KeepsPromises, IsSupplied};
ghost use Rattle.hls_machine.specs.Supplied.{IsKept, KeepsStays, accounts};
ghost use Rattle.hls_machine.specs.Readings.{IsUnder, Renews, LetSleep};
ghost use Rattle.hls_machine.specs.Alike.{AreAlike};
ghost use Rattle.hls_machine.specs.Lists.{IsListed};
ghost use Rattle.hls_machine.specs.Seated.{IsSeated};

use hls_chron::{Config, Terms};
use hls_derive::{Derivation, Place};
use hls_guarantee::Guarantee;

/// Every scheduler of a legal run has a book that came about as it may: it began empty, and each of
/// its marks and rows came to a book that allowed it.
pub fn legal_runs_make_books()
    ensures { (steps : List Step) → IsLegal start steps → (k : ℕ) (s : Scheduler) →
        (state start steps).nodes k ≡ Some (Loaded s) → IsMade s.config s.book }
{}

/// Terms that fit a book fit it still once seats are left, and where a slot was free one is the least
/// free then: so a move that is tested with the mover in its old seat finds its new one.
pub fn movers_find_their_seats(config: Config)
    ensures fits { (b : Ledger) (left : List Seat) (k : ℕ) (terms : Terms) → Fits config b terms →
        Fits config (with_marks b (leavings left k)) terms }
    ensures slot { (b : Ledger) (left : List Seat) (k : ℕ) → ¬ IsFull config b →
        (slot : ℕ) × IsFree config (with_marks b (leavings left k)) slot }
{}

/// The stays of at least one tick, which a report lists, are among those that are kept.
pub fn kept_stays_keep_accounts()
    ensures { (h : Hierarchy) → KeepsStays h → All (IsKept h) (accounts h) }
{}

/// The lists of a legal run are of what is there: schedulers, threads, and for each thread the stay
/// that it has begun. No two nodes that are there have one name.
pub fn legal_runs_list_what_is_there()
    ensures { (steps : List Step) → IsLegal start steps → IsListed (state start steps) }
{}

/// Where a legal run leads, in each taken slot sits one port of one node, on the terms that the book
/// has, and the root alone sits at the processor.
pub fn legal_runs_seat_one_in_each_place()
    ensures { (steps : List Step) → IsLegal start steps → IsSeated (state start steps) }
{}

/// A legal run goes on by any step that may be taken where it leads.
pub fn legal_runs_go_on()
    ensures legal { (steps : List Step) (step : Step) → IsLegal start steps → Can (state start steps) step →
        IsLegal start (steps ++ step ∷ []) }
    ensures leads { (steps : List Step) (step : Step) →
        state start (steps ++ step ∷ []) ≡ after (state start steps) step }
{}

/// The books that a legal run leaves are linked: a seat asks where its child asks and is served
/// where that is granted, and the root is granted each tick in which it asks.
pub fn legal_runs_link_the_books()
    ensures { (steps : List Step) → IsLegal start steps → (rank : ℕ → ℕ) × IsLinked (state start steps) rank }
{}

/// Where the books are linked and keep their promises, every seat was supplied with its guarantee.
pub fn linked_books_supply_every_seat()
    ensures { (h : Hierarchy) (rank : ℕ → ℕ) → IsLinked h rank → KeepsPromises h → IsSupplied h }
{}

/// Each tick of a legal run that served a thread served one that was ready.
pub fn legal_runs_run_ready_threads()
    ensures { (steps : List Step) → IsLegal start steps → (thread t : ℕ) →
        was_served (state start steps).past thread t ≡ true →
        had_asked (state start steps).past thread t ≡ true }
{}

/// A thread that was blocked does not run before it is woken again, also not in the tick of its
/// block.
pub fn blocked_threads_do_not_run()
    ensures { (h : Hierarchy) (k : ℕ) (steps : List Step) (asking : ℕ → Bool) (masks : ℕ → ℕ) (path : Path) →
        LetSleep k steps → Can (state (after h (Block k)) steps) (Elapse asking masks (Some path)) →
        path.thread ≢ k }
{}

/// A tick is idle only where there is no root or it does not ask.
pub fn idle_ticks_find_no_asking_root()
    ensures { (h : Hierarchy) (asking : ℕ → Bool) (masks : ℕ → ℕ) → Can h (Elapse asking masks None) →
        (root : ℕ) → h.root ≡ Some root → asks_now h root (masks root) (h.nodes root) ≡ false }
{}

/// No row of a legal run serves a slot that does not ask.
pub fn legal_runs_serve_slots_that_ask()
    ensures { (steps : List Step) → IsLegal start steps → (k slot t : ℕ) →
        served (book_at (state start steps) k) slot t ≡ true →
        asked (book_at (state start steps) k) slot t ≡ true }
{}

/// A move begins anew the accounts of the moved node and of all that is below it, and of no other:
/// schedulers are settled, and threads have new stays.
pub fn moves_renew_what_is_below()
    ensures { (steps : List Step) → IsLegal start steps → (k : ℕ) (seat : Seat) (below : ℕ → Bool) →
        Can (state start steps) (Move k seat below) →
        Renews (state start steps) k (after (state start steps) (Move k seat below)) }
{}

/// Where a legal run leads, a test tells what is below a node exactly where it is true of what sits some seats
/// below it. So a step, which has a test, and a refusal, which counts seats, speak of the same nodes.
pub fn tests_tell_what_is_below()
    ensures { (steps : List Step) → IsLegal start steps → (k : ℕ) (below : ℕ → Bool) →
        IsBelow (state start steps) k below →
        (c : ℕ) → (below c ≡ true) ↔ IsUnder (state start steps) k c }
{}

/// A legal run is a function of its commands, of which of them are refused, and of what is
/// guaranteed: two legal runs that agree on these take the same slots, ask and serve alike in each
/// tick, and lead to the same hierarchy.
pub fn legal_runs_are_determined()
    ensures steps { (steps others : List Step) → IsLegal start steps → IsLegal start others →
        AreAlike steps others → steps ≡ others }
    ensures state { (steps others : List Step) → IsLegal start steps → IsLegal start others →
        AreAlike steps others → state start steps ≡ state start others }
{}

/// Where a legal run leads, a tick can elapse, and in one way only.
pub fn ticks_elapse_in_one_way()
    ensures some { (steps : List Step) → IsLegal start steps →
        (asking : ℕ → Bool) × (masks : ℕ → ℕ) × (path : Option Path) ×
        Can (state start steps) (Elapse asking masks path) }
    ensures one { (steps : List Step) → IsLegal start steps →
        (asking other : ℕ → Bool) (masks slots : ℕ → ℕ) (path way : Option Path) →
        Can (state start steps) (Elapse asking masks path) →
        Can (state start steps) (Elapse other slots way) →
        Elapse asking masks path ≡ Elapse other slots way }
{}

/// A scheduler that asks serves a slot, and has one only to serve, where only seats ask.
pub fn asking_schedulers_serve_one_slot(config: Config)
    requires { ConfigInRange config }
    ensures some { (b : Ledger) (mask : ℕ) → HasSeats config b →
        ((slot : ℕ) → slot_asks mask slot ≡ true → terms_at b slot ≢ None) →
        asks config b mask ≡ true → (slot : ℕ) × Serves config b mask slot }
    ensures one { (b : Ledger) (mask slot other : ℕ) → HasSeats config b →
        Serves config b mask slot → Serves config b mask other → slot ≡ other }
{}

/// In every legal run, every stay of a thread, open or closed, meets its guarantee in every window in
/// which the thread is ready, and keeps its cap over the whole stay.
pub fn legal_runs_keep_every_stay()
    ensures { (steps : List Step) → IsLegal start steps → KeepsStays (state start steps) }
{}

/// Each port of each scheduler and thread was supplied with its guarantee, since its load, its
/// admission or the last move of it or of what it is below.
pub fn legal_runs_supply_every_seat()
    ensures { (steps : List Step) → IsLegal start steps → IsSupplied (state start steps) }
{}

/// Where a legal run leads, every book keeps its promise.
pub fn legal_runs_keep_promises()
    ensures { (steps : List Step) → IsLegal start steps → KeepsPromises (state start steps) }
{}

/// And its discipline, of whichever kind its scheduler is; fair queueing serves two seats that ask
/// side by side alike, each by its weight.
pub fn legal_runs_keep_discipline()
    ensures { (steps : List Step) → IsLegal start steps → (k : ℕ) →
        KeepsDiscipline (config_at (state start steps) k) (book_at (state start steps) k) }
{}

/// What has a derivation follows: its guarantee is supplied where what the derivation begins with is.
pub fn derivations_follow(place: Place, want: Guarantee)
    ensures { (haves : List Guarantee) (d : Derivation) → IsDerivation place haves want d →
        Follows place.config place.terms haves want }
{}
