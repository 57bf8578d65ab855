// The shares that can be promised and from which all others follow, in the order of the ports.
ghost use Rattle.std.specs.Prelude.{◌≡◌, ◌⊎◌, ◌↔◌, All, Contains, IfOk, IfSome, IsNone, IsTrue, Some};
ghost use Rattle.hls_guarantee.specs.declared.Guarantee.{Guarantee};
ghost use Rattle.hls_guarantee.specs.Limits.{IsNarrow, IsValid};
ghost use Rattle.hls_offer_best.specs.Best.{CanAsk, Offers};
ghost use Rattle.hls_offer_laws.specs.Offered.{IsShareOf};
ghost use Rattle.hls_offer_best.specs.declared.seat.Seat.{Seat as AskedSeat};
ghost use Rattle.hls_offer_lines.specs.Lines.{AreApart, AreInOrder, AreTopShares, CoverAll, Covers, HasNarrowShares};
ghost use Rattle.hls_offer_lines.specs.Lines.{IsAhead, IsCovered};
ghost use Rattle.hls_offer_lines.specs.Inside.Listing.{IsOfferedThrough, IsValidShare};

use crate::lending::push_some;
use hls_guarantee::{Guarantee, RuleName, narrow};
use hls_offer_best::Seat;
use hls_offer_laws::laws::shares_have_candidates;
use hls_offer_laws::{lent_of, share_of};
use hls_rules::{RuleBook, converts};
use std::alloc::{AllocError, Global};

/// The shares of what is lent that can be promised, but for those that another one covers, in the order of the ports.
pub fn top_shares(
    alloc: Global,
    book: &RuleBook,
    seat: &Seat<'_>,
) -> Result<Vec<Guarantee>, AllocError>
    requires can { CanAsk seat.now }
    ensures top { IfOk result (λ shares. AreTopShares seat.now shares.items) }
    ensures cover { HasNarrowShares seat.now → IfOk result (λ shares. CoverAll seat.now shares.items) }
{
    let mut tops = Vec::new(alloc);
    for have in seat.haves {
        tops = with_share(alloc, tops, share_through(alloc, book, seat, have)?)?;
    }
    shares_have_candidates(&seat.place, seat.haves, seat.depth);
    Ok(tops)
}

/// The share of what a port lends, where it is within the limits of a scenario and can be promised.
fn share_through(
    alloc: Global,
    book: &RuleBook,
    seat: &Seat<'_>,
    have: &Guarantee,
) -> Result<Option<Guarantee>, AllocError>
    requires can { CanAsk seat.now }
    requires have { IsNarrow have.now }
    ensures { IfOk result (λ found. (share : Guarantee) → (found ≡ Some share) ↔
        IsOfferedThrough seat.now have.now share) }
{
    match lent_of(&seat.place, have) {
        Some(lent) => offered_share(alloc, book, seat, &lent),
        None => Ok(None),
    }
}

/// The share of what is lent, where it is within the limits of a scenario and can be promised.
fn offered_share(
    alloc: Global,
    book: &RuleBook,
    seat: &Seat<'_>,
    lent: &Guarantee,
) -> Result<Option<Guarantee>, AllocError>
    requires can { CanAsk seat.now }
    requires valid { IsValid lent.now }
    ensures { IfOk result (λ found. (share : Guarantee) → (found ≡ Some share) ↔
        (IsShareOf lent.now share × IsNarrow share × Offers seat.now share)) }
{
    let Some(share) = share_of(lent) else {
        return Ok(None);
    };
    if narrow(&share) && seat.offers(alloc, book, &share)? {
        return Ok(Some(share));
    }
    Ok(None)
}

/// Shares of which none covers another, and this one behind them, unless one of them covers it.
fn with_share(
    alloc: Global,
    tops: Vec<Guarantee>,
    share: Option<Guarantee>,
) -> Result<Vec<Guarantee>, AllocError>
    requires tops { All IsValidShare tops.items }
    requires share { IfSome share (λ g. IsValidShare g) }
    ensures from { IfOk result (λ more. (g : Guarantee) → Contains more.items g →
        Contains tops.items g ⊎ (share ≡ Some g)) }
    ensures kept { IfOk result (λ more. (g : Guarantee) → IsValidShare g → IsCovered tops.items g →
        IsCovered more.items g) }
    ensures itself { IfOk result (λ more. (g : Guarantee) → share ≡ Some g → IsCovered more.items g) }
    ensures apart { AreApart tops.items → IfOk result (λ more. AreApart more.items) }
    ensures order { (seat : AskedSeat) → AreInOrder seat tops.items → ((g h : Guarantee) → Contains tops.items g →
        share ≡ Some h → (IsCovered tops.items h → ⊥) → IsAhead seat g h) →
        IfOk result (λ more. AreInOrder seat more.items) }
{
    let Some(share) = share else {
        return Ok(tops);
    };
    if is_covered(&tops, &share) {
        return Ok(tops);
    }
    let mut more = not_covered(alloc, &tops, &share)?;
    more.push(share)?;
    Ok(more)
}

/// Whether one of the shares covers this one.
fn is_covered(tops: &[Guarantee], share: &Guarantee) -> bool
    requires tops { All IsValidShare tops.now }
    requires share { IsValidShare share.now }
    ensures { IsTrue result ↔ IsCovered tops.now share.now }
{
    for top in tops {
        if converts(RuleName::R1, top, share) {
            return true;
        }
    }
    false
}

/// The shares that this one does not cover.
fn not_covered(
    alloc: Global,
    tops: &[Guarantee],
    share: &Guarantee,
) -> Result<Vec<Guarantee>, AllocError>
    requires tops { All IsValidShare tops.now }
    requires share { IsValidShare share.now }
    ensures from { IfOk result (λ more. (g : Guarantee) → Contains more.items g →
        Contains tops.now g × (Covers share.now g → ⊥)) }
    ensures each { IfOk result (λ more. (g : Guarantee) → Contains tops.now g →
        Contains more.items g ⊎ Covers share.now g) }
    ensures apart { AreApart tops.now → IfOk result (λ more. AreApart more.items) }
    ensures order { (seat : AskedSeat) → AreInOrder seat tops.now → IfOk result (λ more. AreInOrder seat more.items) }
{
    let mut more = Vec::new(alloc);
    for top in tops {
        push_some(&mut more, unless_covered(share, top))?;
    }
    Ok(more)
}

/// A share, unless this one covers it.
fn unless_covered(share: &Guarantee, top: &Guarantee) -> Option<Guarantee>
    requires share { IsValidShare share.now }
    requires top { IsValidShare top.now }
    ensures some { IfSome result (λ g. (g ≡ top.now) × (Covers share.now top.now → ⊥)) }
    ensures none { IsNone result → Covers share.now top.now }
{
    if converts(RuleName::R1, share, top) {
        return None;
    }
    Some(*top)
}
