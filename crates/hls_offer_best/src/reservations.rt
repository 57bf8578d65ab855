// The cheapest reservation with which a guarantee can be had at a scheduler by deadline.
ghost use Rattle.std.specs.Prelude.{◌≡◌, ◌≤◌, ◌↔◌, ℕ, All, Some, IfOk, IfSome, IsFalse, IsTrue, List, Contains, false};
ghost use Rattle.hls_chron.specs.declared.plain.Terms.TheVariants.{Res};
ghost use Rattle.hls_chron.specs.Ranges.{TermsInRange};
ghost use Rattle.hls_offer_best.specs.declared.reservations.Budget.{Budget};
ghost use Rattle.hls_offer_best.specs.Inside.Trying.{ComesFirstOf, IsHad, TriedPeriod};
ghost use Rattle.hls_offer_best.specs.Reservations.{CanNeed, ComesFirst, IsCheapestIfAny, IsOf, Meets};

use crate::seat::Seat;
use hls_chron::{Config, Terms, parts};
use hls_derive::Place;
use hls_guarantee::Guarantee;
use hls_offer_laws::laws::reservations_have_sizes;
use hls_offer_laws::{direct_size, spread_size};
use hls_rules::RuleBook;
use std::alloc::{AllocError, Global};

/// What is needed of a scheduler by deadline: what it has, how many conversions there may be, and the guarantee
/// that is wanted.
#[derive(Clone, Copy)]
pub struct Need<'a> {
    pub haves: &'a [Guarantee],
    pub depth: u8,
    pub wanted: Guarantee,
}

/// A budget of `x` ticks in each `y`.
#[derive(Clone, Copy, Debug, PartialEq, Eq)]
pub struct Budget {
    pub x: u32,
    pub y: u32,
}

/// The budget, in one of these periods, of the cheapest reservation with which a guarantee can be had, which is a
/// soft one. Of those that cost the same it has the longest period.
///
/// # Errors
/// Returns `AllocError` for want of memory.
pub fn cheapest(
    alloc: Global,
    book: &RuleBook,
    need: &Need<'_>,
    periods: &[u32],
) -> Result<Option<Budget>, AllocError>
    requires can { CanNeed need.now }
    requires periods { All (λ y. (1 ≤ y) × (y ≤ 10000)) periods.now }
    ensures { IfOk result (λ best. IsCheapestIfAny need.now periods.now best) }
{
    let mut best = cheaper(alloc, book, need, guessed(need, periods), None)?;
    for y in periods {
        best = of_period(alloc, book, need, *y, best)?;
    }
    reservations_have_sizes(need.haves, need.depth);
    Ok(best)
}

/// The cheapest budget that may do, which mostly will, so that no other one is searched for.
fn guessed(need: &Need<'_>, periods: &[u32]) -> Option<Budget>
    requires can { CanNeed need.now }
    requires periods { All (λ y. (1 ≤ y) × (y ≤ 10000)) periods.now }
    ensures { IfSome result (λ b. IsOf periods.now b) }
{
    let mut best = None;
    for y in periods {
        best = guessed_of(need, *y, best);
    }
    best
}

/// The cheapest budget that may do so far, or a cheaper one of this period.
fn guessed_of(need: &Need<'_>, y: u32, best: Option<Budget>) -> Option<Budget>
    requires can { CanNeed need.now }
    requires some { 1 ≤ y }
    requires size { y ≤ 10000 }
    ensures { (periods : List ℕ) → Contains periods y → IfSome best (λ b. IsOf periods b) →
        IfSome result (λ b. IsOf periods b) }
{
    let direct = budget_of(direct_size(&need.wanted, y), y);
    let best = lesser(direct, best);
    let spread = budget_of(spread_size(&need.wanted, y), y);
    lesser(spread, best)
}

/// The cheaper one of two budgets.
fn lesser(budget: Option<Budget>, best: Option<Budget>) -> Option<Budget>
    ensures { (periods : List ℕ) → IfSome budget (λ b. IsOf periods b) → IfSome best (λ b. IsOf periods b) →
        IfSome result (λ b. IsOf periods b) }
{
    match budget {
        Some(budget) if is_cheaper(&budget, &best) => Some(budget),
        _ => best,
    }
}

/// The cheapest budget so far, or a cheaper one of this period.
fn of_period(
    alloc: Global,
    book: &RuleBook,
    need: &Need<'_>,
    y: u32,
    best: Option<Budget>,
) -> Result<Option<Budget>, AllocError>
    requires can { CanNeed need.now }
    requires some { 1 ≤ y }
    requires size { y ≤ 10000 }
    ensures had { (periods : List ℕ) → Contains periods y → IfSome best (λ b. IsHad need.now periods b) →
        IfOk result (λ less. IfSome less (λ b. IsHad need.now periods b)) }
    ensures kept { IfOk result (λ less. (b : Budget) → ComesFirstOf best b → ComesFirstOf less b) }
    ensures tried { IfOk result (λ best. TriedPeriod need.now best y) }
{
    let direct = budget_of(direct_size(&need.wanted, y), y);
    let best = cheaper(alloc, book, need, direct, best)?;
    let spread = budget_of(spread_size(&need.wanted, y), y);
    cheaper(alloc, book, need, spread, best)
}

fn budget_of(x: Option<u32>, y: u32) -> Option<Budget>
    ensures { (b : Budget) → (result ≡ Some b) ↔ ((x ≡ Some b.x) × (b.y ≡ y)) }
{
    match x {
        Some(x) => Some(Budget { x, y }),
        None => None,
    }
}

/// The cheapest budget so far, or this one where it is cheaper and will do.
fn cheaper(
    alloc: Global,
    book: &RuleBook,
    need: &Need<'_>,
    budget: Option<Budget>,
    best: Option<Budget>,
) -> Result<Option<Budget>, AllocError>
    requires can { CanNeed need.now }
    requires range { IfSome budget (λ b. TermsInRange (Res false b.x b.y)) }
    ensures had { (periods : List ℕ) → IfSome budget (λ b. Contains periods b.y) →
        IfSome best (λ b. IsHad need.now periods b) →
        IfOk result (λ less. IfSome less (λ b. IsHad need.now periods b)) }
    ensures kept { IfOk result (λ less. (b : Budget) → ComesFirstOf best b → ComesFirstOf less b) }
    ensures tried { IfOk result (λ best. (b : Budget) → budget ≡ Some b → Meets need.now false b →
        ComesFirstOf best b) }
{
    let Some(budget) = budget else {
        return Ok(best);
    };
    if is_cheaper(&budget, &best) && will_do(alloc, book, need, &budget)? {
        return Ok(Some(budget));
    }
    Ok(best)
}

/// Whether the guarantee can be had with a soft reservation of this budget.
fn will_do(
    alloc: Global,
    book: &RuleBook,
    need: &Need<'_>,
    budget: &Budget,
) -> Result<bool, AllocError>
    requires can { CanNeed need.now }
    requires range { TermsInRange (Res false budget.now.x budget.now.y) }
    ensures { IfOk result (λ will. IsTrue will ↔ Meets need.now false budget.now) }
{
    let terms = Terms::Res {
        hard: false,
        x: budget.x,
        y: budget.y,
    };
    let seat = Seat {
        place: Place {
            config: Config::Edf,
            terms,
        },
        haves: need.haves,
        depth: need.depth,
    };
    seat.offers(alloc, book, &need.wanted)
}

/// Whether a budget comes before the cheapest so far.
fn is_cheaper(budget: &Budget, best: &Option<Budget>) -> bool
    ensures yes { IsTrue result → (b : Budget) → ComesFirstOf best.now b → ComesFirst budget.now b }
    ensures no { IsFalse result → ComesFirstOf best.now budget.now }
{
    match best {
        Some(best) => comes_before(budget, best),
        None => true,
    }
}

/// Whether a budget is cheaper, or costs the same and has a longer period.
fn comes_before(budget: &Budget, other: &Budget) -> bool
    ensures yes { IsTrue result → ComesFirst budget.now other.now }
    ensures no { IsFalse result → ComesFirst other.now budget.now }
{
    let cost = parts(budget.x, budget.y);
    let least = parts(other.x, other.y);
    cost < least || (cost == least && budget.y > other.y)
}
