// Every tick, and hard reservations, where they can be promised.
ghost use Rattle.std.specs.Prelude.{◌≡◌, ◌≢◌, ◌↔◌, ◌⊎◌, AllPairs, Contains, IfOk, IfSome, Some};
ghost use Rattle.hls_guarantee.specs.declared.Guarantee.{Guarantee};
ghost use Rattle.hls_guarantee.specs.Limits.{IsNarrow, IsValid};
ghost use Rattle.hls_offer_best.specs.Best.{CanAsk, Offers};
ghost use Rattle.hls_offer_lines.specs.Lines.{IsHardOf, ListsEach};
ghost use Rattle.hls_offer_lines.specs.Inside.Listing.{AreLent, MayGive};

use crate::lending::lists;
use hls_guarantee::Guarantee;
use hls_offer_best::{Form, Seat};
use hls_offer_laws::laws::hard_offers_are_lent;
use hls_rules::RuleBook;
use std::alloc::{AllocError, Global};

/// Every tick, where it can be promised.
pub fn whole_lines(
    alloc: Global,
    book: &RuleBook,
    seat: &Seat<'_>,
) -> Result<Vec<Guarantee>, AllocError>
    requires { CanAsk seat.now }
    ensures { IfOk result (λ lines. ListsEach (λ g. (g ≡ Guarantee.All) × Offers seat.now g) lines.items) }
{
    with_line(alloc, book, seat, Vec::new(alloc), Some(Guarantee::All))
}

/// All hard reservations of a form that can be promised.
pub fn hard_lines(
    alloc: Global,
    book: &RuleBook,
    seat: &Seat<'_>,
    lent: &[Guarantee],
    form: Form,
) -> Result<Vec<Guarantee>, AllocError>
    requires can { CanAsk seat.now }
    requires lent { AreLent seat.now lent.now }
    ensures { IfOk result (λ lines. ListsEach (λ g. IsHardOf form g × Offers seat.now g) lines.items) }
{
    let mut lines = Vec::new(alloc);
    for one in lent {
        lines = with_line(alloc, book, seat, lines, hard_of(form, one))?;
    }
    hard_offers_are_lent(&seat.place, seat.haves, seat.depth);
    Ok(lines)
}

/// The hard reservation of this form that may be offered where this is lent.
fn hard_of(form: Form, lent: &Guarantee) -> Option<Guarantee>
    requires { IsValid lent.now }
    ensures exact { (g : Guarantee) → (result ≡ Some g) ↔ MayGive form lent.now g }
    ensures narrow { IfSome result (λ g. IsNarrow g) }
{
    match (form, *lent) {
        (Form::Blocks, Guarantee::Resb { hard: true, x, y }) => {
            Some(Guarantee::Resb { hard: true, x, y })
        }
        (Form::Blocks, Guarantee::Resc { hard: true, x, y }) => {
            Some(Guarantee::Resb { hard: true, x, y })
        }
        (Form::Windows, Guarantee::Resc { hard: true, x, y }) => {
            Some(Guarantee::Resc { hard: true, x, y })
        }
        _ => None,
    }
}

/// The lines, and this one where it can be promised and is none of them.
fn with_line(
    alloc: Global,
    book: &RuleBook,
    seat: &Seat<'_>,
    lines: Vec<Guarantee>,
    line: Option<Guarantee>,
) -> Result<Vec<Guarantee>, AllocError>
    requires can { CanAsk seat.now }
    requires narrow { IfSome line (λ g. IsNarrow g) }
    ensures exact { IfOk result (λ more. (g : Guarantee) →
        Contains more.items g ↔ (Contains lines.items g ⊎ ((line ≡ Some g) × Offers seat.now g))) }
    ensures once { AllPairs (λ g h. g ≢ h) lines.items →
        IfOk result (λ more. AllPairs (λ g h. g ≢ h) more.items) }
{
    let Some(line) = line else {
        return Ok(lines);
    };
    if lists(&lines, &line) {
        return Ok(lines);
    }
    if !seat.offers(alloc, book, &line)? {
        return Ok(lines);
    }
    let mut more = lines;
    more.push(line)?;
    Ok(more)
}
