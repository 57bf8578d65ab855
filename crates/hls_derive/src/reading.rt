// Reading a derivation from its text.
ghost use Rattle.std.specs.Prelude.{◌≡◌, ◌≢◌, ℕ, ◌++◌, List, Some, IfOk, IfSome, MatchOption};
ghost use Rattle.hls_derive.specs.Derivation.{IsWithinGrammar};
ghost use Rattle.hls_derive.specs.DerivationText.{derivation_text};
ghost use Rattle.hls_derive.specs.Inside.Reading.{IsEnd, spaces_of, Stands, StepStands, SchedStands, StepsStand};

use crate::words::{rule, scheduler, space};
use crate::{Derivation, SchedStep, Step};
use hls_guarantee::{Guarantee, read_guarantee};
use std::alloc::{AllocError, Global};

/// How many conversions a derivation has at most.
const MOST_CONVERSIONS: usize = 6;

/// The guarantee with so many spaces at the front of the text, and what stands behind it.
fn guarantee_of(text: &[u8], spaces: usize) -> Option<(Guarantee, &[u8])>
    ensures { MatchOption result
        ((g : Guarantee) (rest : List ℕ) → Stands text.now g rest → spaces_of g ≢ spaces)
        (λ p. Stands text.now p.0 p.1.now) }
{
    let (front, rest) = text.split_at(space(text, spaces));
    match read_guarantee(front) {
        Some(g) => Some((g, rest)),
        None => None,
    }
}

/// The guarantee at the front of a text, before a space or the text's end, and what stands behind it.
pub fn guarantee(text: &[u8]) -> Option<(Guarantee, &[u8])>
    ensures { MatchOption result
        ((g : Guarantee) (rest : List ℕ) → ¬ Stands text.now g rest)
        (λ p. Stands text.now p.0 p.1.now) }
{
    match guarantee_of(text, 0) {
        Some(found) => Some(found),
        None => guarantee_of(text, 2),
    }
}

fn step(text: &[u8]) -> Option<(Step, &[u8])>
    ensures { MatchOption result
        ((s : Step) (rest : List ℕ) → ¬ StepStands text.now s rest)
        (λ p. StepStands text.now p.0 p.1.now) }
{
    let Some((rule, rest)) = rule(text) else {
        return None;
    };
    let Some((to, rest)) = guarantee(rest) else {
        return None;
    };
    Some((Step { rule, to }, rest))
}

fn sched_step(text: &[u8]) -> Option<(SchedStep, &[u8])>
    ensures { MatchOption result
        ((s : SchedStep) (rest : List ℕ) → ¬ SchedStands text.now s rest)
        (λ p. SchedStands text.now p.0 p.1.now) }
{
    let Some((kind, port, rest)) = scheduler(text) else {
        return None;
    };
    let Some((to, rest)) = guarantee(rest) else {
        return None;
    };
    Some((SchedStep { kind, port, to }, rest))
}

/// The conversions at the front of the text, and what stands behind the last.
fn steps(alloc: Global, text: &[u8]) -> Result<(Vec<Step>, &[u8]), AllocError>
    requires { IsEnd text.now }
    ensures { IfOk result (λ p. StepsStand text.now p.0.items p.1.now) }
{
    let mut steps = Vec::new(alloc);
    let mut rest = text;
    while let Some((step, behind)) = step(rest) {
        steps.push(step)?;
        rest = behind;
    }
    Ok((steps, rest))
}

/// The derivation that a text spells, of at most six conversions, with a port of at most 3 that
/// is 0 but for a join, and with guarantees in the limits of derivations; `None` for every
/// other text.
///
/// # Errors
/// Returns `AllocError` for want of memory.
pub fn read_derivation(alloc: Global, text: &[u8]) -> Result<Option<Derivation>, AllocError>
    ensures found { IfOk result (λ found.
        IfSome found (λ d. IsWithinGrammar d × (text.now ≡ derivation_text d))) }
    ensures exact { IfOk result (λ found.
        (d : Derivation) → IsWithinGrammar d → text.now ≡ derivation_text d → found ≡ Some d) }
{
    let Some((from, rest)) = guarantee(text) else {
        return Ok(None);
    };
    let (before, rest) = steps(alloc, rest)?;
    let Some((sched, rest)) = sched_step(rest) else {
        return Ok(None);
    };
    let (after, rest) = steps(alloc, rest)?;
    if !rest.is_empty() {
        return Ok(None);
    }
    if before.len() + after.len() > MOST_CONVERSIONS {
        return Ok(None);
    }
    Ok(Some(Derivation {
        from,
        before: hls_chron::List::of(before),
        sched,
        after: hls_chron::List::of(after),
    }))
}
