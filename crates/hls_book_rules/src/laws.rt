//! What holds of the definitions: each function's contract is a law, and its body does nothing.

ghost use Rattle.std.specs.Prelude.{◌≡◌, ℕ, ◌+◌, Option, Bool, true, false, ◌<◌, min};
ghost use Rattle.hls_chron.specs.Kinds.{by_shares};
ghost use Rattle.hls_chron.specs.Ledger.{Ledger, now_of};
ghost use Rattle.hls_chron.specs.Ranges.{most_slots};
ghost use Rattle.hls_chron.specs.Seats.{terms_at};
ghost use Rattle.hls_kinds.specs.Discipline.{Serves};
ghost use Rattle.hls_kinds.specs.Frames.{owner_at};
ghost use Rattle.hls_kinds.specs.Room.{weight_in};
ghost use Rattle.hls_kinds.specs.Stands.{to_deadlines, rest_of_budget, rest_of_share, to_rivals, tag_of_asking};
ghost use Rattle.hls_kinds.specs.Stands.{owned_for};
ghost use Rattle.hls_kinds.specs.Turns.{turn_goes_on};
ghost use Rattle.hls_kinds.specs.Made.{IsMade};
ghost use Rattle.hls_kinds.specs.Tags.{start_tag, tag_step};
ghost use Rattle.hls_book_rules.specs.Budgets.{KeepsBudgetRules, KeepsClaimRules, claim_before};
ghost use Rattle.hls_book_rules.specs.NewBooks.{IsNew, BeginsAnew};
ghost use Rattle.hls_kinds.specs.Tags.{MeetTagRules};
ghost use Rattle.hls_kinds.specs.Reservations.{MeetBudgetRules};
ghost use Rattle.hls_book_rules.specs.Tags.{KeepsTagRules, KeepsTagOrderInTicks};
ghost use Rattle.hls_book.specs.Turns.{KeepsTurnRules};
ghost use Rattle.hls_book_rules.specs.Places.{KeepsPlaceRules};
ghost use Rattle.hls_book_rules.specs.Stands.{OnlySeatsAsk};

use hls_chron::{Config, Sharing};
use hls_kinds::{Claim, Reservation};

/// What each kind begins with in a new book: virtual time 0, the first slot next with a whole quantum, no owners, and
/// no budgets.
pub fn new_books_begin_anew()
    ensures { (b : Ledger) → IsNew b → BeginsAnew b }
{}

/// The budget and the deadline of a reservation go from tick to tick by their rules, whatever it asks and is served in
/// ticks in which it asks (after Abeni and Buttazzo 1998).
pub fn budgets_meet_their_rules(reservation: Reservation)
    ensures { (asks serves : ℕ → Bool) (n : ℕ) → KeepsBudgetRules reservation asks serves n }
{}

/// What goes by these rules from tick to tick is this alone, in whatever way it is computed.
pub fn budgets_are_the_only_ones(reservation: Reservation)
    ensures { (asks serves : ℕ → Bool) (claims : ℕ → Claim) → MeetBudgetRules reservation asks serves claims →
        ((n : ℕ) → serves (reservation.since + n) ≡ true → asks (reservation.since + n) ≡ true) →
        (n : ℕ) → claims n ≡ claim_before reservation asks serves n }
{}

/// So do those by which a tick is given away.
pub fn claims_meet_their_rules(reservation: Reservation)
    ensures { (b : Ledger) (mask slot : ℕ) → KeepsClaimRules b mask slot reservation }
{}

/// The virtual time and the tags of fair queueing go from tick to tick, and from seat to seat, by their rules (after
/// Goyal, Guo and Vin 1996).
pub fn tags_meet_their_rules(sharing: Sharing)
    ensures { (b : Ledger) → IsMade (by_shares sharing) b → KeepsTagRules sharing.quantum b }
{}

/// The start tags are the only ones that meet their rules in every tick, in whatever way they are computed.
pub fn start_tags_are_the_only_ones()
    ensures { (quantum : ℕ) (b : Ledger) (tags : ℕ → ℕ → ℕ) → MeetTagRules quantum b tags → (t slot : ℕ) →
        tags t slot ≡ start_tag quantum b t slot }
{}

/// The virtual time never falls, and is not past the start tag of a seat that asks. A start tag is fixed when its seat
/// begins to ask: it stays while the seat asks and waits, and is a step later once it was served.
pub fn tags_keep_their_order(sharing: Sharing)
    ensures { (b : Ledger) → IsMade (by_shares sharing) b → KeepsTagOrderInTicks sharing b }
{}

/// The turns of round robin and of fair queueing go from tick to tick, and from seat to seat, by their rules.
pub fn turns_meet_their_rules(quantum: u32)
    requires { 0 < quantum }
    ensures rounds { (b : Ledger) → IsMade (Config.Rr quantum) b → KeepsTurnRules quantum b }
    ensures shares { (sharing : Sharing) (b : Ledger) → IsMade (by_shares sharing) b →
        KeepsTurnRules sharing.quantum b }
{}

/// The places of a frame come to seats and go by their rules.
pub fn places_meet_their_rules()
    ensures { (b : Ledger) → KeepsPlaceRules b }
{}

/// Each scheduler stands for the present tick: deadlines lie ahead, a turn has some of its quantum left, whose turn
/// begins has the least tag, and a place is its owner's. So `stands_of`, which says one tick at least, says no more
/// than these numbers do.
pub fn each_stands_for_the_present_tick(sharing: Sharing)
    requires { 0 < sharing.quantum }
    ensures reservations { (b : Ledger) (mask : ℕ) (choice : Option ℕ) → IsMade Config.Edf b → OnlySeatsAsk b mask →
        0 < min (to_deadlines b mask most_slots) (rest_of_budget b mask choice) }
    ensures shares { (b : Ledger) (mask : ℕ) (choice : Option ℕ) → 0 < rest_of_share sharing.quantum b mask choice }
    ensures rivals { (b : Ledger) (mask slot : ℕ) → IsMade (by_shares sharing) b → OnlySeatsAsk b mask →
        Serves (by_shares sharing) b mask slot → turn_goes_on sharing.quantum b mask ≡ false →
        0 < to_rivals (tag_of_asking sharing.quantum b mask) slot (start_tag sharing.quantum b (now_of b) slot)
        (tag_step (weight_in (terms_at b slot))) most_slots }
    ensures frames { (b : Ledger) (frame : ℕ) → 0 < owned_for (owner_at b) frame (now_of b) frame }
{}
