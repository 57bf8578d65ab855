// The rates at which guarantees give ticks, which no conversion raises.
ghost use Rattle.std.specs.Prelude.{◌≡◌, ℕ, ◌≤◌, ◌^◌, ◌↔◌, IsTrue};
ghost use Rattle.hls_chron.specs.Ranges.{ConfigInRange, TermsInRange};
ghost use Rattle.hls_guarantee.specs.Limits.{IsNarrow, IsValid};
ghost use Rattle.hls_guarantee.specs.Steps.{LendsByTerms};
ghost use Rattle.hls_search_laws.specs.Rates.{pace_of, IsFaster};
ghost use Rattle.hls_search.specs.Inside.Parts.{HasPartRate};
ghost use Rattle.hls_search.specs.Inside.Places.{HitsByBest, HitsByGoal, LendsShares};

use hls_chron::Terms;
use hls_derive::Place;
use hls_guarantee::Guarantee;

/// A rate: so many ticks of so many.
#[derive(Clone, Copy)]
struct Rate {
    ticks: u128,
    of: u128,
}

/// The rate at which a guarantee gives ticks.
fn rate_of(g: &Guarantee) -> Rate
    requires { IsValid g.now }
    ensures ticks { result.ticks ≡ (pace_of g.now).num }
    ensures of { result.of ≡ (pace_of g.now).den }
    ensures few { result.ticks ≤ 10 ^ 13 }
    ensures short { result.of ≤ 10 ^ 8 }
{
    match *g {
        Guarantee::All => Rate { ticks: 1, of: 1 },
        Guarantee::Null => Rate { ticks: 0, of: 1 },
        Guarantee::Resb { x, y, .. } | Guarantee::Resc { x, y, .. } => Rate {
            ticks: x as u128,
            of: y as u128,
        },
        Guarantee::Psbe { s, .. } => Rate {
            ticks: s.num,
            of: s.den,
        },
    }
}

/// Whether what is wanted comes at a higher rate than what there is, so that no conversions lead there.
pub fn is_faster(want: &Guarantee, from: &Guarantee) -> bool
    requires want { IsValid want.now }
    requires from { IsValid from.now }
    ensures { IsTrue result ↔ IsFaster want.now from.now }
{
    let wanted = rate_of(want);
    let there = rate_of(from);
    there.ticks * wanted.of < wanted.ticks * there.of
}

/// So many parts of so many.
#[derive(Clone, Copy)]
struct Part {
    weight: u32,
    total: u32,
}

/// The part of a rate that a place lends.
fn part_at(place: &Place) -> Part
    requires config { ConfigInRange place.now.config }
    requires terms { TermsInRange place.now.terms }
    requires kind { LendsShares place.now.config }
    ensures lends { (g h : Guarantee) → LendsByTerms place.now.config place.now.terms g h →
        HasPartRate result.weight result.total g h }
    ensures light { result.weight ≤ 20 }
    ensures some { 1 ≤ result.total }
    ensures few { result.total ≤ 100 }
{
    match (place.config.sharing(), place.terms) {
        (Some(sharing), Terms::Weight(weight)) => Part {
            weight,
            total: sharing.total,
        },
        _ => Part {
            weight: 1,
            total: 32,
        },
    }
}

/// Whether what is wanted comes at a higher rate than the part of what there is that a place lends.
pub fn is_beyond(place: &Place, want: &Guarantee, have: &Guarantee) -> bool
    requires config { ConfigInRange place.now.config }
    requires terms { TermsInRange place.now.terms }
    requires kind { LendsShares place.now.config }
    requires want { IsValid want.now }
    requires have { IsNarrow have.now }
    requires valid { IsValid have.now }
    ensures best { IsTrue result → (n : ℕ) →
        HitsByBest place.now.config place.now.terms n have.now want.now → ⊥ }
    ensures goal { IsTrue result → (n : ℕ) →
        HitsByGoal place.now.config place.now.terms n have.now want.now → ⊥ }
{
    let Part { weight, total } = part_at(place);
    let wanted = rate_of(want);
    let there = rate_of(have);
    there.ticks * weight as u128 * wanted.of < wanted.ticks * there.of * total as u128
}
