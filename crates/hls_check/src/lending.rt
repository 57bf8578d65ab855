// What a place lends of what it has.
ghost use Rattle.std.specs.Prelude.{◌≡◌, ◌≤◌, ◌^◌, ◌↔◌, IsTrue, IfSome, IsNone, true};
ghost use Rattle.hls_chron.specs.Ranges.{ConfigInRange, TermsInRange, IsWithin};
ghost use Rattle.hls_guarantee.specs.Limits.{IsValid, IsShare};
ghost use Rattle.hls_guarantee.specs.Satisfaction.{IsSoft};
ghost use Rattle.hls_chron.specs.Kinds.{IsPort, by_shares};
ghost use Rattle.hls_guarantee.specs.Steps.{LendsByTerms, LendsNothing, LendsThrough};

use hls_chron::{Config, Sharing, Terms};
use hls_derive::Place;
use hls_frac::Frac;
use hls_guarantee::Guarantee;
use hls_rules::quotient;

/// Whether a seat at the place is lent `h` where the scheduler has `g` through this port.
pub fn lends(place: &Place, port: u8, g: &Guarantee, h: &Guarantee) -> bool
    requires config { ConfigInRange place.now.config }
    requires terms { TermsInRange place.now.terms }
    requires from { IsValid g.now }
    requires to { IsValid h.now }
    ensures { IsTrue result ↔ LendsThrough place.now.config place.now.terms port g.now h.now }
{
    place.config.has_port(port) && (is_lent(place, g, h) || lends_nothing(&place.config, h))
}

/// What terms of the scheduler's kind lend a seat where the scheduler has `g`, if they lend anything.
pub fn lent(place: &Place, g: &Guarantee) -> Option<Guarantee>
    requires config { ConfigInRange place.now.config }
    requires terms { TermsInRange place.now.terms }
    requires from { IsValid g.now }
    ensures some { IfSome result (λ h. LendsByTerms place.now.config place.now.terms g.now h) }
    ensures none { IsNone result → (h : Guarantee) →
        LendsByTerms place.now.config place.now.terms g.now h → ⊥ }
{
    if let Some(sharing) = place.config.sharing() {
        return lent_of_share(&sharing, &place.terms, g);
    }
    match (place.config, place.terms, *g) {
        (Config::Cpu, Terms::Cpu, Guarantee::All) => Some(Guarantee::All),
        (Config::Fp, Terms::Prio(0), _) => Some(*g),
        (Config::Edf, Terms::Res { hard, x, y }, Guarantee::All) => {
            Some(Guarantee::Resb { hard, x, y })
        }
        (Config::Wheel { frame }, Terms::Slots(places), Guarantee::All) => {
            places_lent(places, frame)
        }
        (Config::Rr { quantum }, Terms::Turn, Guarantee::Psbe { s, d }) => {
            Some(turn_lent(quantum, &s, &d))
        }
        (Config::Join { .. }, Terms::Sole, _) => soft(g),
        _ => None,
    }
}

/// The same of fair queueing with these numbers.
fn lent_of_share(sharing: &Sharing, terms: &Terms, g: &Guarantee) -> Option<Guarantee>
    requires config { ConfigInRange (by_shares sharing.now) }
    requires terms { TermsInRange terms.now }
    requires from { IsValid g.now }
    ensures some { IfSome result (λ h. LendsByTerms (by_shares sharing.now) terms.now g.now h) }
    ensures none { IsNone result → (h : Guarantee) →
        LendsByTerms (by_shares sharing.now) terms.now g.now h → ⊥ }
{
    match (*terms, *g) {
        (Terms::Weight(weight), Guarantee::Psbe { s, d }) => share_lent(sharing, weight, &s, &d),
        _ => None,
    }
}

fn places_lent(places: u32, frame: u32) -> Option<Guarantee>
    ensures some { IfSome result (λ h. (places ≤ frame) × (h ≡ Guarantee.Resc true places frame)) }
    ensures none { IsNone result → places ≤ frame → ⊥ }
{
    if places > frame {
        return None;
    }
    Some(Guarantee::Resc {
        hard: true,
        x: places,
        y: frame,
    })
}

/// The share of a seat of this weight, where there is weight for it.
fn share_lent(sharing: &Sharing, weight: u32, s: &Frac, d: &Frac) -> Option<Guarantee>
    requires config { ConfigInRange (by_shares sharing.now) }
    requires terms { TermsInRange (Terms.Weight weight) }
    requires share { IsShare (10 ^ 13) (10 ^ 8) s.now d.now }
    ensures some { IfSome result (λ h.
        LendsByTerms (by_shares sharing.now) (Terms.Weight weight) (Guarantee.Psbe s.now d.now) h) }
    ensures none { IsNone result → weight ≤ sharing.now.total → ⊥ }
{
    let total = sharing.total;
    if weight > total {
        return None;
    }
    let part = quotient(weight as u128, total as u128);
    let others = quotient(((sharing.most - 1) * sharing.quantum) as u128, 1);
    let rest = quotient(((total - weight) * sharing.quantum) as u128, total as u128);
    Some(Guarantee::Psbe {
        s: s.mul(&part),
        d: d.add(&others).mul(&part).add(&rest),
    })
}

/// The share of a turn, one of 32 at most.
fn turn_lent(quantum: u32, s: &Frac, d: &Frac) -> Guarantee
    requires config { ConfigInRange (Config.Rr quantum) }
    requires share { IsShare (10 ^ 13) (10 ^ 8) s.now d.now }
    ensures { LendsByTerms (Config.Rr quantum) Terms.Turn (Guarantee.Psbe s.now d.now) result }
{
    let part = quotient(1, 32);
    let others = quotient(31 * quantum as u128, 1);
    Guarantee::Psbe {
        s: s.mul(&part),
        d: d.add(&others).mul(&part),
    }
}

/// The guarantee itself where more service never breaks it.
fn soft(g: &Guarantee) -> Option<Guarantee>
    ensures some { IfSome result (λ h. IsSoft g.now × (h ≡ g.now)) }
    ensures none { IsNone result → IsSoft g.now → ⊥ }
{
    match g {
        Guarantee::Resb { hard, .. } | Guarantee::Resc { hard, .. } if *hard => None,
        _ => Some(*g),
    }
}

fn is_lent(place: &Place, g: &Guarantee, h: &Guarantee) -> bool
    requires config { ConfigInRange place.now.config }
    requires terms { TermsInRange place.now.terms }
    requires from { IsValid g.now }
    ensures { IsTrue result ↔ LendsByTerms place.now.config place.now.terms g.now h.now }
{
    lent(place, g) == Some(*h)
}

fn lends_nothing(config: &Config, h: &Guarantee) -> bool
    ensures { IsTrue result ↔ LendsNothing config.now h.now }
{
    match (config, h) {
        (Config::Cpu, _) => false,
        (_, Guarantee::Null) => true,
        _ => false,
    }
}
