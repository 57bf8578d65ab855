// What a place lends, and the share of a guarantee.
ghost use Rattle.std.specs.Prelude.{◌≡◌, ◌≢◌, ◌↔◌, Some, IfSome, IsNone};
ghost use Rattle.hls_chron.specs.Ranges.{ConfigInRange, TermsInRange};
ghost use Rattle.hls_guarantee.specs.declared.Guarantee.{Guarantee};
ghost use Rattle.hls_guarantee.specs.Limits.{IsNarrow, IsValid};
ghost use Rattle.hls_guarantee.specs.Steps.{LendsByTerms};
ghost use Rattle.hls_derive.specs.Derives.{IsWholeShare};
ghost use Rattle.hls_offer_laws.specs.Offered.{IsLentOf, IsShareOf};

use hls_check::lent;
use hls_chron::{Kind, Terms};
use hls_derive::Place;
use hls_guarantee::{Guarantee, RuleName};
use hls_rules::{quotient, strongest};

/// The share of a guarantee: what a single conversion, or none, makes of it. Nothing has none.
pub fn share_of(g: &Guarantee) -> Option<Guarantee>
    requires { IsValid g.now }
    ensures share { IfSome result (λ share. IsShareOf g.now share) }
    ensures none { IsNone result → g.now ≡ Guarantee.Null }
{
    match *g {
        Guarantee::All => Some(whole_share()),
        Guarantee::Null => None,
        Guarantee::Resb { .. } => strongest(RuleName::R4, g),
        Guarantee::Resc { .. } => strongest(RuleName::R5, g),
        Guarantee::Psbe { .. } => Some(*g),
    }
}

/// Every tick as a share.
fn whole_share() -> Guarantee
    ensures { IsWholeShare result }
{
    Guarantee::Psbe {
        s: quotient(1, 1),
        d: quotient(0, 1),
    }
}

/// What the terms of a place lend of what a port has, if it is more than nothing.
pub fn lent_of(place: &Place, have: &Guarantee) -> Option<Guarantee>
    requires config { ConfigInRange place.now.config }
    requires terms { TermsInRange place.now.terms }
    requires have { IsNarrow have.now }
    ensures { (lent : Guarantee) → (result ≡ Some lent) ↔
        (IsLentOf place.now.config place.now.terms have.now lent × (lent ≢ Guarantee.Null)) }
{
    match place.config.kind() {
        Kind::Join => passed_on(&place.terms, have),
        Kind::Sfq | Kind::Rr => lent_by_terms(place, &share_of(have)?),
        Kind::Cpu | Kind::Fp | Kind::Edf | Kind::Wheel => lent_by_terms(place, have),
    }
}

fn lent_by_terms(place: &Place, g: &Guarantee) -> Option<Guarantee>
    requires config { ConfigInRange place.now.config }
    requires terms { TermsInRange place.now.terms }
    requires from { IsValid g.now }
    ensures { (lent : Guarantee) → (result ≡ Some lent) ↔
        (LendsByTerms place.now.config place.now.terms g.now lent × (lent ≢ Guarantee.Null)) }
{
    unless_nothing(lent(place, g)?)
}

/// What a port has, for the seat of a join.
fn passed_on(terms: &Terms, have: &Guarantee) -> Option<Guarantee>
    ensures { (lent : Guarantee) → (result ≡ Some lent) ↔
        ((terms.now ≡ Terms.Sole) × (lent ≡ have.now) × (lent ≢ Guarantee.Null)) }
{
    match terms {
        Terms::Sole => unless_nothing(*have),
        Terms::Cpu
        | Terms::Prio(_)
        | Terms::Res { .. }
        | Terms::Weight(_)
        | Terms::Slots(_)
        | Terms::Turn => None,
    }
}

fn unless_nothing(g: Guarantee) -> Option<Guarantee>
    ensures { (kept : Guarantee) → (result ≡ Some kept) ↔ ((kept ≡ g) × (kept ≢ Guarantee.Null)) }
{
    match g {
        Guarantee::Null => None,
        more => Some(more),
    }
}
