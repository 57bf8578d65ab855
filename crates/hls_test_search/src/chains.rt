// Chains of conversions over a few guarantees, tried one by one.
ghost use Rattle.std.specs.Prelude.{◌≡◌};
ghost use Rattle.hls_chron.specs.Ranges.{ConfigInRange, TermsInRange};
ghost use Rattle.hls_guarantee.specs.Limits.{IsValid};
ghost use Rattle.hls_chron.specs.Kinds.{port_count};

use hls_check::lends;
use hls_derive::Place;
use hls_guarantee::{Guarantee, narrow, valid};
use hls_rules::{RULES, RuleBook, converts};
use hls_search::search;
use std::alloc::{AllocError, Global};

/// Whether some rule leads from `g` to `h`.
fn one_step(g: &Guarantee, h: &Guarantee) -> bool {
    if !valid(g) || !valid(h) {
        return false;
    }
    for rule in RULES {
        if converts(rule, g, h) {
            return true;
        }
    }
    false
}

/// What at most `steps` conversions reach from one of `from`, by way of known guarantees alone.
fn reached(
    alloc: Global,
    known: &[Guarantee],
    from: &[Guarantee],
    steps: u8,
) -> Result<Vec<Guarantee>, AllocError> {
    let mut all = Vec::new(alloc);
    all.extend_from_slice(from)?;
    for _ in 0..steps {
        let mut more = Vec::new(alloc);
        for next in known {
            if all.contains(next) || all.iter().any(|g| one_step(g, next)) {
                more.push(*next)?;
            }
        }
        all = more;
    }
    Ok(all)
}

/// What the place lends of these, as far as it is known.
fn lent_of(
    alloc: Global,
    known: &[Guarantee],
    place: &Place,
    from: &[Guarantee],
) -> Result<Vec<Guarantee>, AllocError>
    requires config { ConfigInRange place.now.config }
    requires terms { TermsInRange place.now.terms }
{
    let mut all = Vec::new(alloc);
    for to in known {
        if valid(to) && any_lends(place, from, to) {
            all.push(*to)?;
        }
    }
    Ok(all)
}

fn any_lends(place: &Place, from: &[Guarantee], to: &Guarantee) -> bool
    requires config { ConfigInRange place.now.config }
    requires terms { TermsInRange place.now.terms }
    requires to { IsValid to.now }
{
    for g in from {
        if valid(g) && lends(place, 0, g, to) {
            return true;
        }
    }
    false
}

/// What has a derivation of at most `depth` conversions by way of known guarantees alone.
fn derived(
    alloc: Global,
    known: &[Guarantee],
    place: &Place,
    have: &Guarantee,
    depth: u8,
) -> Result<Vec<Guarantee>, AllocError>
    requires config { ConfigInRange place.now.config }
    requires terms { TermsInRange place.now.terms }
{
    let mut all = Vec::new(alloc);
    for before in 0..=depth {
        let into = reached(alloc, known, &[*have], before)?;
        let to = lent_of(alloc, known, place, &into)?;
        all.extend(reached(alloc, known, &to, depth - before)?)?;
    }
    Ok(all)
}

/// Whether a search finds something.
fn finds(
    alloc: Global,
    book: &RuleBook,
    place: &Place,
    have: &Guarantee,
    want: &Guarantee,
    depth: u8,
) -> Result<bool, AllocError>
    requires config { ConfigInRange place.now.config }
    requires terms { TermsInRange place.now.terms }
    requires ports { port_count place.now.config ≡ 1 }
{
    if !narrow(have) || !narrow(want) {
        return Ok(false);
    }
    let haves = [*have];
    Ok(search(alloc, book, place, &haves, want, depth)?.is_some())
}

/// How many searches find nothing where there is a derivation of at most `depth` conversions by way of these
/// guarantees, and how many find something where there is none.
pub fn differences(
    alloc: Global,
    book: &RuleBook,
    known: &[Guarantee],
    place: &Place,
    depth: u8,
) -> Result<(u32, u32), AllocError>
    requires config { ConfigInRange place.now.config }
    requires terms { TermsInRange place.now.terms }
    requires ports { port_count place.now.config ≡ 1 }
{
    let mut missed: u32 = 0;
    let mut further: u32 = 0;
    for have in known {
        let slowly = derived(alloc, known, place, have, depth)?;
        for want in known {
            match (
                slowly.contains(want),
                finds(alloc, book, place, have, want, depth)?,
            ) {
                (true, false) => missed = missed.saturating_add(1),
                (false, true) => further = further.saturating_add(1),
                _ => {}
            }
        }
    }
    Ok((missed, further))
}
