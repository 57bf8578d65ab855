// Within how few ticks a seat can be promised one.
ghost use Rattle.std.specs.Prelude.{◌≡◌, ◌≢◌, ◌≤◌, ◌<◌, ℕ, Some, IfOk, IfSome, IsFalse, IsTrue};
ghost use Rattle.hls_guarantee.specs.declared.Guarantee.{Guarantee};
ghost use Rattle.hls_guarantee.specs.Limits.{IsNarrow};
ghost use Rattle.hls_offer_laws.specs.Candidates.{IsWait};
ghost use Rattle.hls_offer_laws.specs.Offered.{IsLentOf};
ghost use Rattle.hls_offer_best.specs.Best.{CanAsk, IsLeastIfAny, Waits};
ghost use Rattle.hls_offer_best.specs.Inside.Trying.{IsFrom};

use crate::seat::Seat;
use hls_guarantee::Guarantee;
use hls_offer_laws::laws::waits_have_candidates;
use hls_offer_laws::{block_wait, lent_of, own_period, shared_wait};
use hls_rules::RuleBook;
use std::alloc::{AllocError, Global};

/// The longest period of a reservation, in ticks.
const LONGEST: u32 = 20_000;

/// The least number of ticks in a row of which one can be promised to the seat.
///
/// # Errors
/// Returns `AllocError` for want of memory.
pub fn least_wait(
    alloc: Global,
    book: &RuleBook,
    seat: &Seat<'_>,
) -> Result<Option<u32>, AllocError>
    requires { CanAsk seat.now }
    ensures { IfOk result (λ least. IsLeastIfAny (λ wait. Waits seat.now wait) least) }
{
    let mut least = None;
    for have in seat.haves {
        least = wait_through(alloc, book, seat, have, least)?;
    }
    waits_have_candidates(&seat.place, seat.haves, seat.depth);
    Ok(least)
}

/// The least wait so far, or a shorter one that comes through a port that has this.
fn wait_through(
    alloc: Global,
    book: &RuleBook,
    seat: &Seat<'_>,
    have: &Guarantee,
    least: Option<u32>,
) -> Result<Option<u32>, AllocError>
    requires can { CanAsk seat.now }
    requires have { IsNarrow have.now }
    requires so_far { IfSome least (λ wait. Waits seat.now wait) }
    ensures waits { IfOk result (λ least. IfSome least (λ wait. Waits seat.now wait)) }
    ensures kept { IfOk result (λ less. (wait : ℕ) → IsFrom least wait → IsFrom less wait) }
    ensures tried { IfOk result (λ least. (lent : Guarantee) (wait : ℕ) →
        IsLentOf seat.now.place.config seat.now.place.terms have.now lent → lent ≢ Guarantee.Null →
        IsWait lent wait → wait ≤ 20000 → Waits seat.now wait → IsFrom least wait) }
{
    let Some(lent) = lent_of(&seat.place, have) else {
        return Ok(least);
    };
    let least = sooner(alloc, book, seat, own_period(&lent), least)?;
    let least = sooner(alloc, book, seat, block_wait(&lent), least)?;
    sooner(alloc, book, seat, shared_wait(&lent), least)
}

/// The least wait so far, or this one where it is shorter and can be promised.
fn sooner(
    alloc: Global,
    book: &RuleBook,
    seat: &Seat<'_>,
    wait: Option<u32>,
    least: Option<u32>,
) -> Result<Option<u32>, AllocError>
    requires can { CanAsk seat.now }
    requires some { IfSome wait (λ wait. 1 ≤ wait) }
    requires so_far { IfSome least (λ wait. Waits seat.now wait) }
    ensures waits { IfOk result (λ least. IfSome least (λ wait. Waits seat.now wait)) }
    ensures kept { IfOk result (λ less. (wait : ℕ) → IsFrom least wait → IsFrom less wait) }
    ensures tried { IfOk result (λ least. (ticks : ℕ) → wait ≡ Some ticks → ticks ≤ 20000 →
        Waits seat.now ticks → IsFrom least ticks) }
{
    let Some(wait) = wait else {
        return Ok(least);
    };
    let windows = Guarantee::Resc {
        hard: false,
        x: 1,
        y: wait,
    };
    if wait <= LONGEST && is_shorter(wait, least) && seat.offers(alloc, book, &windows)? {
        return Ok(Some(wait));
    }
    Ok(least)
}

/// Whether a wait is shorter than the least so far.
fn is_shorter(wait: u32, least: Option<u32>) -> bool
    ensures no { IsFalse result → IsFrom least wait }
    ensures yes { IsTrue result → (other : ℕ) → IsFrom least other → wait ≤ other }
{
    match least {
        Some(least) => wait < least,
        None => true,
    }
}
