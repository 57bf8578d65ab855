//! What holds of a book that came about as it may: each function's contract is a law, and its body does
//! nothing.

ghost use Rattle.std.specs.Prelude.{◌≡◌, ◌≢◌, ℕ, ◌+◌, ◌<◌, [], Some, None, true};
ghost use Rattle.hls_chron.specs.Kinds.{kind_of, by_shares};
ghost use Rattle.hls_chron.specs.Ledger.{Ledger, now_of, with_row, with_mark, row_at, before};
ghost use Rattle.hls_chron.specs.Ranges.{ConfigInRange};
ghost use Rattle.hls_chron.specs.Seats.{SlotAsks, served, terms_at};
ghost use Rattle.hls_kinds.specs.Tenants.{tenant_at};
ghost use Rattle.hls_kinds.specs.Reservations.{deadline_after, budget_after};
ghost use Rattle.hls_kinds.specs.Discipline.{KeepsDiscipline};
ghost use Rattle.hls_kinds.specs.Room.{occupant_at, IsFree, IsFull};
ghost use Rattle.hls_kinds.specs.Fits.{Fits};
ghost use Rattle.hls_kinds.specs.Made.{IsAllowed, IsRow, IsMade};
ghost use Rattle.hls_guarantee.specs.Cap.{KeepsCap};
ghost use Rattle.hls_book.specs.Admission.{KeepsAdmission};
ghost use Rattle.hls_book.specs.Promise.{KeepsPromise};
ghost use Rattle.hls_book.specs.Books.{KeepsReservations, IsGiven, ReachesDeadline};
ghost use Rattle.hls_book.specs.ShareBook.{KeepsShareBook};
ghost use Rattle.hls_book.specs.Places.{KeepsPlaces};

use hls_chron::{Config, Event, Kind, Sharing, Terms, TickRow};
use hls_guarantee::Guarantee;
use hls_kinds::{Reservation, Tenant};

/// A book is made by what it is at first, and by each mark and each row that it allows.
pub fn books_are_made_step_by_step(config: Config)
    ensures begun { (b : Ledger) → kind_of config ≢ Kind.Cpu → ConfigInRange config → b.rows ≡ [] →
        b.marks ≡ [] → IsMade config b }
    ensures marked { (b : Ledger) (event : Event) → IsMade config b → IsAllowed config b event →
        IsMade config (with_mark b event) }
    ensures ticked { (b : Ledger) (row : TickRow) → IsMade config b → IsRow config b row →
        IsMade config (with_row b row) }
{}

/// Only schedulers of one of the kinds, configured in range, make books.
pub fn made_books_are_configured(config: Config)
    ensures kind { (b : Ledger) → IsMade config b → kind_of config ≢ Kind.Cpu }
    ensures range { (b : Ledger) → IsMade config b → ConfigInRange config }
{}

/// A made book keeps its promise: each seat gets what the scheduler lends it of what the scheduler
/// is given.
pub fn made_books_keep_promises(config: Config)
    ensures { (b : Ledger) → IsMade config b → KeepsPromise config b }
{}

/// It keeps its discipline. Fair queueing besides serves two seats that ask side by side alike, each
/// by its weight.
pub fn made_books_keep_discipline(config: Config)
    ensures { (b : Ledger) → IsMade config b → KeepsDiscipline config b }
{}

/// It admitted its seats as they are to be.
pub fn made_books_keep_admission(config: Config)
    ensures { (b : Ledger) → IsMade config b → KeepsAdmission config b }
{}

/// In each tick only seats asked.
pub fn only_seats_ask(config: Config)
    ensures { (b : Ledger) → IsMade config b → (t slot : ℕ) → t < now_of b →
        SlotAsks (row_at b t).mask slot → terms_at (before t b) slot ≢ None }
{}

/// It has what the laws of its kind ask of a book.
pub fn made_books_meet_their_kind()
    ensures reservations { (b : Ledger) → IsMade Config.Edf b → KeepsReservations b }
    ensures shares { (sharing : Sharing) (b : Ledger) → IsMade (by_shares sharing) b → KeepsShareBook sharing b }
    ensures places { (frame : ℕ) (b : Ledger) → IsMade (Config.Wheel frame) b → KeepsPlaces frame b }
{}

/// Where the scheduler was given every tick in which it asked, since its start or its last settling, a
/// seat that asks on to its deadline has no budget left at it, and is not past it.
pub fn made_reservations_meet_their_deadlines()
    ensures { (b : Ledger) (slot t last : ℕ) (r : Reservation) → IsMade Config.Edf b → IsGiven b →
        ReachesDeadline b slot r t last →
        (deadline_after r (Some last) ≡ t + 1) × (budget_after r (served b slot) (Some last) (t + 1) ≡ 0) }
{}

/// A hard seat gets no more than its share and twice its budget, ready or not, whatever the scheduler
/// was given.
pub fn made_reservations_keep_their_caps()
    ensures { (b : Ledger) (slot : ℕ) (r : Reservation) → IsMade Config.Edf b →
        tenant_at b slot ≡ Tenant.Sits (Terms.Res true r.x r.y) r.since →
        KeepsCap (Guarantee.Resb true r.x r.y) (served b slot) r.since (now_of b) }
{}

/// A seat of a frame gets no more than its places of any ticks of a frame, ready or not, whatever the
/// scheduler was given.
pub fn made_frames_keep_their_caps(frame: u32)
    ensures { (b : Ledger) (slot since places : ℕ) → IsMade (Config.Wheel frame) b →
        tenant_at b slot ≡ Tenant.Sits (Terms.Slots places) since →
        KeepsCap (Guarantee.Resc true places frame) (served b slot) since (now_of b) }
{}

/// What fits goes on to fit after a leaving: parts, also held ones, weights, places and priority
/// numbers.
pub fn what_fits_fits_after_a_leaving(config: Config)
    ensures { (b : Ledger) (slot : ℕ) (terms : Terms) → Fits config b terms →
        Fits config (with_mark b (Event.Leave slot)) terms }
{}

/// And what is free stays free: no slot is taken up by a leaving, and a scheduler that is full then
/// was full before.
pub fn what_is_free_is_free_after_a_leaving(config: Config)
    ensures slots { (b : Ledger) (slot other : ℕ) → occupant_at config b other ≡ None →
        occupant_at config (with_mark b (Event.Leave slot)) other ≡ None }
    ensures full { (b : Ledger) (slot : ℕ) → IsFull config (with_mark b (Event.Leave slot)) →
        IsFull config b }
{}

/// A scheduler that is not full has a slot that is the least free one, and one only.
pub fn least_free_slots_are_one(config: Config)
    ensures some { (b : Ledger) → ¬ IsFull config b → (slot : ℕ) × IsFree config b slot }
    ensures one { (b : Ledger) (slot other : ℕ) → IsFree config b slot → IsFree config b other →
        slot ≡ other }
{}
