//! What holds of reservations: each function's contract is a law, and its body does nothing.

ghost use Rattle.hls_chron.specs.Ranges.{most_slots};
ghost use Rattle.std.specs.Prelude.{◌≡◌, ℕ, ◌*◌, ◌-◌, ◌≤◌, Bool, true};
ghost use Rattle.hls_chron.specs.Ledger.{Ledger, now_of};
ghost use Rattle.hls_chron.specs.Parts.{all_parts};
ghost use Rattle.hls_kinds.specs.Made.{IsMade};
ghost use Rattle.hls_kinds.specs.Tenants.{tenant_at};
ghost use Rattle.hls_book.specs.Books.{IsGiven, server_at};
ghost use Rattle.hls_book.specs.Servers.{claimed_in};
ghost use Rattle.hls_book_isolation.specs.Claims.{IsClaim, SparesBudgets};
ghost use Rattle.hls_book_isolation.specs.Isolation.{IsCapped, HasBudgets};
ghost use Rattle.hls_book_isolation.specs.Demand.{demand};

use hls_chron::{Config, Terms};
use hls_kinds::Tenant;

/// At every tick the budget of a reservation of `x` ticks in every `y` is at most `x`, and its deadline at most `y`
/// ticks ahead, whichever slots ask. The deadline of a seat that asks lies ahead.
pub fn budgets_and_deadlines_stay_near()
    ensures { (b : Ledger) (mask slot x y since : ℕ) (hard : Bool) → IsMade Config.Edf b →
        tenant_at b slot ≡ Tenant.Sits (Terms.Res hard x y) since → IsClaim b mask slot x y }
{}

/// Whatever the others ask, and whatever the scheduler is given, a hard seat is served at most its share of any span
/// of ticks and twice its budget. In whole ticks it is less: twice its budget at once, and its share of the rest.
pub fn hard_seats_are_capped_in_any_span()
    ensures { (b : Ledger) (slot x y since : ℕ) → IsMade Config.Edf b →
        tenant_at b slot ≡ Tenant.Sits (Terms.Res true x y) since → IsCapped b slot x y since }
{}

/// Whatever the others ask, a seat is served its budget in each of its periods while it asks on, hard or soft, where
/// the scheduler was given every tick in which it asked.
pub fn seats_have_their_budgets_beside_any_others()
    ensures { (b : Ledger) (slot x y since : ℕ) (hard : Bool) → IsMade Config.Edf b → IsGiven b →
        tenant_at b slot ≡ Tenant.Sits (Terms.Res hard x y) since → HasBudgets b slot hard x y since }
{}

/// A seat that is served without budget takes no tick from one that asks with budget.
pub fn service_without_budget_takes_none()
    ensures { (b : Ledger) → IsMade Config.Edf b → SparesBudgets b }
{}

/// What all reservations that ask may use up to any bound fits the ticks up to it, where the scheduler was given every
/// tick in which it asked: budgets whose deadlines come by then, and those of the whole periods that follow. So does,
/// in parts, what those that wait and those that are held may use besides.
pub fn demand_fits_the_ticks()
    ensures ticks { (b : Ledger) (mask bound : ℕ) → IsMade Config.Edf b → IsGiven b → now_of b ≤ bound →
        demand b mask bound ≤ bound - now_of b }
    ensures parts { (b : Ledger) (bound : ℕ) → IsMade Config.Edf b → IsGiven b → now_of b ≤ bound →
        claimed_in all_parts (server_at b) most_slots (now_of b) bound ≤ all_parts * (bound - now_of b) }
{}
