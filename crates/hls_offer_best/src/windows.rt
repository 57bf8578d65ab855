// The most ticks of a window, or of a block, that can be promised to a seat.
ghost use Rattle.std.specs.Prelude.{◌≡◌, ◌≢◌, ◌≤◌, ◌<◌, ◌↔◌, ℕ, Some, IfOk, IfSome, IsFalse, IsTrue};
ghost use Rattle.hls_guarantee.specs.declared.Guarantee.{Guarantee};
ghost use Rattle.hls_guarantee.specs.Limits.{IsNarrow, IsReservation};
ghost use Rattle.hls_offer_laws.specs.Candidates.{IsWindow};
ghost use Rattle.hls_offer_laws.specs.Offered.{IsLentOf};
ghost use Rattle.hls_offer_best.specs.Best.{CanAskWindow, Gives, IsMostIfAny, formed};
ghost use Rattle.hls_offer_best.specs.Inside.Trying.{IsUpTo};

use crate::seat::Seat;
use hls_guarantee::Guarantee;
use hls_offer_laws::laws::windows_have_candidates;
use hls_offer_laws::{block_ticks, lent_of, own_ticks, shared_ticks};
use hls_rules::RuleBook;
use std::alloc::{AllocError, Global};

/// A form of soft reservations.
#[derive(Clone, Copy, Debug, PartialEq, Eq)]
pub enum Form {
    /// By blocks.
    Blocks,
    /// By sliding windows.
    Windows,
}

impl Form {
    /// The reservation of `x` ticks in `y`.
    pub fn of(&self, x: u32, y: u32) -> Guarantee
        ensures { result ≡ formed self.now x y }
    {
        match self {
            Form::Blocks => Guarantee::Resb { hard: false, x, y },
            Form::Windows => Guarantee::Resc { hard: false, x, y },
        }
    }
}

/// Windows, or blocks, of `y` ticks, of a seat that is asked about.
#[derive(Clone, Copy)]
pub struct Window<'a> {
    pub seat: Seat<'a>,
    pub form: Form,
    pub y: u32,
}

/// The most ticks of a window that can be promised to its seat.
///
/// # Errors
/// Returns `AllocError` for want of memory.
pub fn most_ticks(
    alloc: Global,
    book: &RuleBook,
    window: &Window<'_>,
) -> Result<Option<u32>, AllocError>
    requires { CanAskWindow window.now }
    ensures { IfOk result (λ most. IsMostIfAny (λ x. Gives window.now x) most) }
{
    let mut most = None;
    for have in window.seat.haves {
        most = through_port(alloc, book, window, have, most)?;
    }
    windows_have_candidates(&window.seat.place, window.seat.haves, window.seat.depth);
    Ok(most)
}

/// The most ticks so far, or more that come through a port that has this.
fn through_port(
    alloc: Global,
    book: &RuleBook,
    window: &Window<'_>,
    have: &Guarantee,
    most: Option<u32>,
) -> Result<Option<u32>, AllocError>
    requires can { CanAskWindow window.now }
    requires have { IsNarrow have.now }
    requires so_far { IfSome most (λ x. Gives window.now x) }
    ensures gives { IfOk result (λ most. IfSome most (λ x. Gives window.now x)) }
    ensures kept { IfOk result (λ more. (x : ℕ) → IsUpTo most x → IsUpTo more x) }
    ensures tried { IfOk result (λ most. (lent : Guarantee) (x : ℕ) →
        IsLentOf window.now.seat.place.config window.now.seat.place.terms have.now lent →
        lent ≢ Guarantee.Null → IsWindow lent x window.now.y → Gives window.now x → IsUpTo most x) }
{
    let Some(lent) = lent_of(&window.seat.place, have) else {
        return Ok(most);
    };
    let most = greater(alloc, book, window, own_ticks(&lent, window.y), most)?;
    let most = greater(alloc, book, window, block_ticks(&lent, window.y), most)?;
    greater(alloc, book, window, shared_ticks(&lent, window.y), most)
}

/// The most ticks so far, or these where they are more and can be promised.
fn greater(
    alloc: Global,
    book: &RuleBook,
    window: &Window<'_>,
    ticks: Option<u32>,
    most: Option<u32>,
) -> Result<Option<u32>, AllocError>
    requires can { CanAskWindow window.now }
    requires size { IfSome ticks (λ x. IsReservation x window.now.y) }
    requires so_far { IfSome most (λ x. Gives window.now x) }
    ensures gives { IfOk result (λ most. IfSome most (λ x. Gives window.now x)) }
    ensures kept { IfOk result (λ more. (x : ℕ) → IsUpTo most x → IsUpTo more x) }
    ensures tried { IfOk result (λ most. (x : ℕ) → ticks ≡ Some x → Gives window.now x → IsUpTo most x) }
{
    let Some(ticks) = ticks else {
        return Ok(most);
    };
    if exceeds(ticks, most)
        && window
            .seat
            .offers(alloc, book, &window.form.of(ticks, window.y))?
    {
        return Ok(Some(ticks));
    }
    Ok(most)
}

/// Whether some ticks are more than the most so far.
fn exceeds(ticks: u32, most: Option<u32>) -> bool
    ensures no { IsFalse result → IsUpTo most ticks }
    ensures yes { IsTrue result → (x : ℕ) → IsUpTo most x → x ≤ ticks }
{
    match most {
        Some(most) => ticks > most,
        None => true,
    }
}
