// Shares of shares, at fair queueing and in rounds of turns.
ghost use Rattle.std.specs.Prelude.{◌≡◌, ℕ, ◌*◌, ◌≤◌, ◌^◌, IfSome, IsNone, IsSome, length};
ghost use Rattle.hls_chron.specs.Kinds.{by_shares};
ghost use Rattle.hls_chron.specs.Ranges.{ConfigInRange, TermsInRange};
ghost use Rattle.hls_guarantee.specs.Limits.{IsNarrow, IsShare, IsValid};
ghost use Rattle.hls_guarantee.specs.Conversions.{Converts};
ghost use Rattle.hls_guarantee.specs.Steps.{LendsByTerms};
ghost use Rattle.hls_derive.specs.Derives.{IsWholeShare};
ghost use Rattle.hls_search.specs.Inside.Chains.{LeadsTo};
ghost use Rattle.hls_search.specs.Inside.Parts.{IsPartSize, PartOf};
ghost use Rattle.hls_search.specs.Inside.Places.{IsBestShare, LendsShares, ToShare};

use crate::chain::Chain;
use crate::words::ask;
use hls_chron::{Config, Sharing, Terms};
use hls_derive::{Place, Step};
use hls_frac::Frac;
use hls_guarantee::{Guarantee, RuleName};
use hls_rules::{RuleBook, quotient};

/// A share, and the conversions that lead to it.
#[derive(Drop)]
pub struct Share {
    pub before: Chain,
    pub share: Guarantee,
}

/// The best share of a guarantee, if it gives one.
pub fn best_share(book: &RuleBook, have: &Guarantee) -> Option<Share>
    requires { IsNarrow have.now }
    ensures best { IfSome result (λ best. IsBestShare have.now (length best.before) best.share) }
    ensures narrow { IfSome result (λ best. IsNarrow best.share) }
    ensures leads { IfSome result (λ best. LeadsTo 1 have.now best.share best.before) }
    ensures none { IsNone result → (count : ℕ) (share : Guarantee) → IsBestShare have.now count share → ⊥ }
{
    match *have {
        Guarantee::Psbe { .. } => Some(Share {
            before: Chain::none(),
            share: *have,
        }),
        Guarantee::All => Some(converted(book, RuleName::R8, have)),
        Guarantee::Resb { .. } => Some(converted(book, RuleName::R4, have)),
        Guarantee::Resc { .. } => Some(converted(book, RuleName::R5, have)),
        Guarantee::Null => None,
    }
}

/// The best share by the rule that makes a share of such a guarantee.
fn converted(book: &RuleBook, rule: RuleName, have: &Guarantee) -> Share
    requires rule { ToShare rule have.now }
    requires have { IsNarrow have.now }
    ensures best { IsBestShare have.now (length result.before) result.share }
    ensures narrow { IsNarrow result.share }
    ensures leads { LeadsTo 1 have.now result.share result.before }
{
    match ask(book, rule, have, &whole_share()) {
        Some(share) => Share {
            before: Chain::one(Step { rule, to: share }),
            share,
        },
        None => unreachable!(),
    }
}

/// Every tick as a share.
fn whole_share() -> Guarantee
    ensures whole { IsWholeShare result }
    ensures valid { IsValid result }
{
    Guarantee::Psbe {
        s: quotient(1, 1),
        d: quotient(0, 1),
    }
}

/// A share of which a seat at the place is lent what is wanted, if there is one.
pub fn share_for(place: &Place, want: &Guarantee) -> Option<Guarantee>
    requires config { ConfigInRange place.now.config }
    requires terms { TermsInRange place.now.terms }
    requires kind { LendsShares place.now.config }
    requires want { IsNarrow want.now }
    ensures some { IfSome result (λ goal. LendsByTerms place.now.config place.now.terms goal want.now) }
    ensures of_all { IfSome result (λ goal. Converts RuleName.R8 Guarantee.All goal) }
    ensures none { IsNone result → (goal : Guarantee) → IsValid goal →
        LendsByTerms place.now.config place.now.terms goal want.now → ⊥ }
{
    if let Some(sharing) = place.config.sharing() {
        return fair_for(&sharing, &place.terms, want);
    }
    match (place.config, place.terms, *want) {
        (Config::Rr { quantum }, Terms::Turn, Guarantee::Psbe { s: rate, d: error }) => {
            turn_before(quantum, &rate, &error)
        }
        _ => None,
    }
}

/// The same of fair queueing with these numbers.
fn fair_for(sharing: &Sharing, terms: &Terms, want: &Guarantee) -> Option<Guarantee>
    requires config { ConfigInRange (by_shares sharing.now) }
    requires terms { TermsInRange terms.now }
    requires want { IsNarrow want.now }
    ensures some { IfSome result (λ goal. LendsByTerms (by_shares sharing.now) terms.now goal want.now) }
    ensures of_all { IfSome result (λ goal. Converts RuleName.R8 Guarantee.All goal) }
    ensures none { IsNone result → (goal : Guarantee) → IsValid goal →
        LendsByTerms (by_shares sharing.now) terms.now goal want.now → ⊥ }
{
    match (*terms, *want) {
        (Terms::Weight(weight), Guarantee::Psbe { s: rate, d: error }) => {
            fair_before(sharing, weight, &rate, &error)
        }
        _ => None,
    }
}

/// The share of which a seat of this weight is lent the share `rate` with the error `error`, if there is one.
fn fair_before(sharing: &Sharing, weight: u32, rate: &Frac, error: &Frac) -> Option<Guarantee>
    requires config { ConfigInRange (by_shares sharing.now) }
    requires terms { TermsInRange (Terms.Weight weight) }
    requires narrow { IsShare (10 ^ 10) (10 ^ 6) rate.now error.now }
    ensures some { IfSome result (λ goal.
        LendsByTerms (by_shares sharing.now) (Terms.Weight weight) goal (Guarantee.Psbe rate.now error.now)) }
    ensures of_all { IfSome result (λ goal. Converts RuleName.R8 Guarantee.All goal) }
    ensures none { IsNone result → (goal : Guarantee) → IsValid goal →
        LendsByTerms (by_shares sharing.now) (Terms.Weight weight) goal (Guarantee.Psbe rate.now error.now) → ⊥ }
{
    let total = sharing.total;
    if weight > total {
        return None;
    }
    let others = ((sharing.most - 1) * weight + (total - weight)) * sharing.quantum;
    share_before(weight, total, others, rate, error)
}

/// The same of a turn in a round.
fn turn_before(quantum: u32, rate: &Frac, error: &Frac) -> Option<Guarantee>
    requires config { ConfigInRange (Config.Rr quantum) }
    requires narrow { IsShare (10 ^ 10) (10 ^ 6) rate.now error.now }
    ensures some { IfSome result (λ goal. LendsByTerms (Config.Rr quantum) Terms.Turn goal
        (Guarantee.Psbe rate.now error.now)) }
    ensures of_all { IfSome result (λ goal. Converts RuleName.R8 Guarantee.All goal) }
    ensures none { IsNone result → (goal : Guarantee) → IsValid goal →
        LendsByTerms (Config.Rr quantum) Terms.Turn goal (Guarantee.Psbe rate.now error.now) → ⊥ }
{
    share_before(1, 32, 31 * quantum, rate, error)
}

/// The share of which such a part is the share `rate` with the error `error`, if there is one.
fn share_before(
    weight: u32,
    total: u32,
    others: u32,
    rate: &Frac,
    error: &Frac,
) -> Option<Guarantee>
    requires size { IsPartSize weight total others }
    requires narrow { IsShare (10 ^ 10) (10 ^ 6) rate.now error.now }
    ensures some { IfSome result (λ goal. PartOf weight total others goal (Guarantee.Psbe rate.now error.now)) }
    ensures of_all { IfSome result (λ goal. Converts RuleName.R8 Guarantee.All goal) }
    ensures none { IsNone result → (goal : Guarantee) → IsValid goal →
        PartOf weight total others goal (Guarantee.Psbe rate.now error.now) → ⊥ }
{
    let lost = others as u128 * error.den;
    let num = rate.num * total as u128;
    let den = rate.den * weight as u128;
    let owed = error.num * total as u128;
    if num > den || lost > owed {
        return None;
    }
    Some(Guarantee::Psbe {
        s: quotient(num, den),
        d: quotient(owed - lost, error.den * weight as u128),
    })
}
