//! What holds of a book of reservations: each function's contract is a law, and its body does nothing.

ghost use Rattle.std.specs.Prelude.{◌≡◌, ◌≢◌, ℕ, ◌+◌, [], Some, None, true};
ghost use Rattle.hls_chron.specs.Ledger.{Ledger, now_of, with_row, with_mark};
ghost use Rattle.hls_chron.specs.Ranges.{TermsInRange};
ghost use Rattle.hls_chron.specs.Seats.{served, terms_at};
ghost use Rattle.hls_kinds.specs.Tenants.{tenant_at};
ghost use Rattle.hls_kinds.specs.Reservations.{deadline_after, budget_after};
ghost use Rattle.hls_kinds.specs.Room.{IsFree};
ghost use Rattle.hls_kinds.specs.Fits.{Fits};
ghost use Rattle.hls_kinds.specs.Made.{IsRow};
ghost use Rattle.hls_book.specs.Promise.{KeepsPromise};
ghost use Rattle.hls_guarantee.specs.Cap.{KeepsCap};
ghost use Rattle.hls_book.specs.Books.{KeepsReservations, IsGiven, ReachesDeadline};

use hls_chron::{Config, Event, Terms, TickRow};
use hls_guarantee::Guarantee;
use hls_kinds::{Reservation, Tenant};

/// Where the scheduler was given every tick in which it asked, since its start or its last settling, a seat
/// that asks on to its deadline has no budget left at it, and is not past it.
pub fn deadlines_find_no_budget()
    ensures { (b : Ledger) (slot t last : ℕ) (r : Reservation) → KeepsReservations b → IsGiven b
        → ReachesDeadline b slot r t last
        → (deadline_after r (Some last) ≡ t + 1) × (budget_after r (served b slot) (Some last) (t + 1) ≡ 0) }
{}

/// Where the scheduler was given every tick in which it asked, each seat gets its budget in each of its
/// periods, as a hard or a soft reservation.
pub fn reservations_are_kept()
    ensures { (b : Ledger) → KeepsReservations b → KeepsPromise Config.Edf b }
{}

/// A hard seat gets no more than its share and twice its budget, ready or not, whatever the scheduler was
/// given.
pub fn hard_seats_are_capped()
    ensures { (b : Ledger) (slot : ℕ) (r : Reservation) → KeepsReservations b
        → tenant_at b slot ≡ Tenant.Sits (Terms.Res true r.x r.y) r.since
        → KeepsCap (Guarantee.Resb true r.x r.y) (served b slot) r.since (now_of b) }
{}

/// A book in which nothing is written keeps reservations.
pub fn a_new_book_keeps_reservations()
    ensures { (b : Ledger) → b.rows ≡ [] → b.marks ≡ [] → KeepsReservations b }
{}

/// It still does after a tick in which only seats asked, and which served nobody or the slot to serve.
pub fn a_tick_keeps_reservations()
    ensures { (b : Ledger) (row : TickRow) → KeepsReservations b → IsRow Config.Edf b row
        → KeepsReservations (with_row b row) }
{}

/// After a seating at the least free slot, on terms that fit: there is a slot, and there are the parts.
pub fn a_seating_keeps_reservations()
    ensures { (b : Ledger) (slot : ℕ) (terms : Terms) → KeepsReservations b → TermsInRange terms
        → Fits Config.Edf b terms → IsFree Config.Edf b slot
        → KeepsReservations (with_mark b (Event.Seat slot terms)) }
{}

/// After a leaving.
pub fn a_leaving_keeps_reservations()
    ensures { (b : Ledger) (slot : ℕ) → KeepsReservations b → terms_at b slot ≢ None
        → KeepsReservations (with_mark b (Event.Leave slot)) }
{}

/// And after a settling.
pub fn a_settling_keeps_reservations()
    ensures { (b : Ledger) → KeepsReservations b → KeepsReservations (with_mark b Event.Settle) }
{}
