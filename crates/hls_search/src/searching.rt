// The search for a derivation.
ghost use Rattle.std.specs.Prelude.{◌≡◌, ◌≤◌, ◌<◌, [], IfOk, IfSome, IsNone, All, length, slice_get};
ghost use Rattle.hls_guarantee.specs.Limits.{IsNarrow, IsValid};
ghost use Rattle.hls_guarantee.specs.Steps.{LendsNothing};
ghost use Rattle.hls_derive.specs.Derivation.{conversions};
ghost use Rattle.hls_derive.specs.Derives.{IsDerivation};
ghost use Rattle.hls_search.specs.Search.{CanSearch};
ghost use Rattle.hls_search.specs.Inside.Found.{Derives, derivation_of, through};
ghost use Rattle.hls_search.specs.Inside.Places.{
  HitsByBest,
  HitsByGoal,
  LendsOfAll,
  LendsShares,
  NoneWithin,
  PassesOn,
};

use crate::chain::Chain;
use crate::found::Found;
use crate::rates::is_beyond;
use crate::sharing::{Share, best_share, share_for};
use crate::words::{ask, convert};
use hls_check::{lends, lent};
use hls_chron::{Config, List};
use hls_derive::{Derivation, Place, SchedStep, Step};
use hls_guarantee::{Guarantee, RuleName};
use hls_rules::RuleBook;
use std::alloc::{AllocError, Global};

/// A derivation at the place, from what its ports have, to what is wanted, with at most `depth` conversions.
/// None comes exactly where there is none, whatever the guarantees in between. The rules of the book are called,
/// at most about twenty-five times a port, and nothing else is known of them than what they answer. Memory is taken
/// for the derivation alone, once it is found.
///
/// # Errors
///
/// Want of memory.
pub fn search(
    alloc: Global,
    book: &RuleBook,
    place: &Place,
    haves: &[Guarantee],
    want: &Guarantee,
    depth: u8,
) -> Result<Option<Derivation>, AllocError>
    requires { CanSearch place.now haves.now want.now }
    ensures found { IfOk result (λ found. IfSome found (λ d.
        IsDerivation place.now haves.now want.now d × (conversions d ≤ depth))) }
    ensures none { IfOk result (λ found. IsNone found → (d : Derivation) →
        IsDerivation place.now haves.now want.now d → conversions d ≤ depth → ⊥) }
{
    let have = have_at(haves, 0);
    if lends(place, 0, &have, want) {
        return Ok(Some(direct(alloc, place, have, *want)));
    }
    match find(book, place, haves, want, depth as usize) {
        Some(found) => Ok(Some(found.derivation(alloc)?)),
        None => Ok(None),
    }
}

/// The derivation with no conversion, through the first port.
fn direct(alloc: Global, place: &Place, from: Guarantee, to: Guarantee) -> Derivation
    ensures { result ≡ derivation_of (through place.now 0 from [] to []) }
{
    Derivation {
        from,
        before: List::of(Vec::new(alloc)),
        sched: SchedStep {
            kind: place.config.kind(),
            port: 0,
            to,
        },
        after: List::of(Vec::new(alloc)),
    }
}

/// The parts of a derivation, where there is none without conversions.
fn find(
    book: &RuleBook,
    place: &Place,
    haves: &[Guarantee],
    want: &Guarantee,
    depth: usize,
) -> Option<Found>
    requires fits { CanSearch place.now haves.now want.now }
    requires some { LendsNothing place.now.config want.now → ⊥ }
    ensures found { IfSome result (λ found. Derives place.now haves.now want.now depth found) }
    ensures none { IsNone result → NoneWithin place.now haves.now want.now depth }
{
    match place.config {
        Config::Fp | Config::Join { .. } => converted_before(book, place, haves, want, depth),
        Config::Sfq { .. } | Config::Rr { .. } => shared(book, place, haves, want, depth),
        Config::Cpu | Config::Edf | Config::Wheel { .. } => {
            converted_after(book, place, haves, want, depth)
        }
    }
}

/// What a port has.
fn have_at(haves: &[Guarantee], port: usize) -> Guarantee
    requires within { port < length haves.now }
    requires each { All IsNarrow haves.now }
    ensures there { slice_get haves.now port ≡ Some result }
    ensures narrow { IsNarrow result }
    ensures valid { IsValid result }
{
    haves[port]
}

/// The derivation through this port, whose scheduler step is to `to`.
fn lent_at(
    place: &Place,
    port: u8,
    from: Guarantee,
    before: Chain,
    to: Guarantee,
    after: Chain,
) -> Found
    ensures { result ≡ through place.now port from before to after }
{
    let sched = SchedStep {
        kind: place.config.kind(),
        port,
        to,
    };
    Found {
        from,
        before,
        sched,
        after,
    }
}

/// Where the place passes on what it has: what is wanted is converted before it is lent, at the first port that
/// leads there.
fn converted_before(
    book: &RuleBook,
    place: &Place,
    haves: &[Guarantee],
    want: &Guarantee,
    depth: usize,
) -> Option<Found>
    requires fits { CanSearch place.now haves.now want.now }
    requires kind { PassesOn place.now.config }
    requires some { LendsNothing place.now.config want.now → ⊥ }
    ensures found { IfSome result (λ found. Derives place.now haves.now want.now depth found) }
    ensures none { IsNone result → NoneWithin place.now haves.now want.now depth }
{
    if !lends(place, 0, want, want) {
        return None;
    }
    for port in 0..haves.len() {
        let have = have_at(haves, port);
        if let Some(before) = convert(book, &have, want, depth) {
            return Some(lent_at(place, port as u8, have, before, *want, Chain::none()));
        }
    }
    None
}

/// Where the place lends of every tick alone: what it lends is converted.
fn converted_after(
    book: &RuleBook,
    place: &Place,
    haves: &[Guarantee],
    want: &Guarantee,
    depth: usize,
) -> Option<Found>
    requires fits { CanSearch place.now haves.now want.now }
    requires kind { LendsOfAll place.now.config }
    requires some { LendsNothing place.now.config want.now → ⊥ }
    ensures found { IfSome result (λ found. Derives place.now haves.now want.now depth found) }
    ensures none { IsNone result → NoneWithin place.now haves.now want.now depth }
{
    let have = have_at(haves, 0);
    let to = lent(place, &have)?;
    let after = convert(book, &to, want, depth)?;
    Some(lent_at(place, 0, have, Chain::none(), to, after))
}

/// Where the place lends shares of shares: from the best share, or else of every tick from the share for which
/// what is wanted is lent.
/// No rule is asked where that comes at a higher rate than any share that it lends.
fn shared(
    book: &RuleBook,
    place: &Place,
    haves: &[Guarantee],
    want: &Guarantee,
    depth: usize,
) -> Option<Found>
    requires fits { CanSearch place.now haves.now want.now }
    requires kind { LendsShares place.now.config }
    requires some { LendsNothing place.now.config want.now → ⊥ }
    ensures found { IfSome result (λ found. Derives place.now haves.now want.now depth found) }
    ensures none { IsNone result → NoneWithin place.now haves.now want.now depth }
{
    if is_beyond(place, want, &have_at(haves, 0)) {
        return None;
    }
    match by_best_share(book, place, haves, want, depth) {
        Some(found) => Some(found),
        None => by_goal(book, place, haves, want, depth),
    }
}

/// From the best share of what is there.
fn by_best_share(
    book: &RuleBook,
    place: &Place,
    haves: &[Guarantee],
    want: &Guarantee,
    depth: usize,
) -> Option<Found>
    requires fits { CanSearch place.now haves.now want.now }
    requires kind { LendsShares place.now.config }
    ensures found { IfSome result (λ found. Derives place.now haves.now want.now depth found) }
    ensures none { IsNone result → (have : Guarantee) → slice_get haves.now 0 ≡ Some have →
        HitsByBest place.now.config place.now.terms depth have want.now → ⊥ }
{
    let have = have_at(haves, 0);
    let best = best_share(book, &have)?;
    let Share { before, share } = best;
    if before.len() > depth {
        return None;
    }
    let to = lent(place, &share)?;
    let after = convert(book, &to, want, depth - before.len())?;
    Some(lent_at(place, 0, have, before, to, after))
}

/// Of every tick, from the share for which what is wanted is lent.
fn by_goal(
    book: &RuleBook,
    place: &Place,
    haves: &[Guarantee],
    want: &Guarantee,
    depth: usize,
) -> Option<Found>
    requires fits { CanSearch place.now haves.now want.now }
    requires kind { LendsShares place.now.config }
    ensures found { IfSome result (λ found. Derives place.now haves.now want.now depth found) }
    ensures none { IsNone result → (have : Guarantee) → slice_get haves.now 0 ≡ Some have →
        HitsByGoal place.now.config place.now.terms depth have want.now → ⊥ }
{
    let have = have_at(haves, 0);
    let Guarantee::All = have else {
        return None;
    };
    if depth == 0 {
        return None;
    }
    let goal = share_for(place, want)?;
    let to = ask(book, RuleName::R8, &have, &goal)?;
    let before = Chain::one(Step {
        rule: RuleName::R8,
        to,
    });
    Some(lent_at(place, 0, have, before, *want, Chain::none()))
}
