// Whether a derivation is one at a place.
ghost use Rattle.std.specs.Prelude.{◌≡◌, ℕ, ◌<◌, ◌↔◌, Some, IsTrue, IfSome, IsNone, slice_get};
ghost use Rattle.hls_chron.specs.Ranges.{ConfigInRange, TermsInRange};
ghost use Rattle.hls_guarantee.specs.Limits.{IsValid};
ghost use Rattle.hls_derive.specs.Derivation.{conversions, end_of, AreValid};
ghost use Rattle.hls_derive.specs.Derives.{IsDerivation};
ghost use Rattle.hls_check.specs.Checking.{CanCheck, ConvertsAt, FailsFirst, FindsWrong, LendsAt};

use crate::lends;
use hls_derive::{Derivation, Place, SchedStep, Step};
use hls_guarantee::Guarantee;
use hls_rules::converts;

/// Whether a derivation is one.
#[derive(Clone, Copy, Debug, PartialEq, Eq)]
pub enum Verdict {
    /// Every step holds.
    Yes,
    /// The number of the first step that fails.
    No { step: u32 },
}

/// Whether `d` is a derivation at the place, from what its ports have, to what is wanted; else the number of
/// the first step that fails. Step 0 is that the port of the scheduler step has the guarantee with which `d`
/// begins. The conversions and the scheduler step follow in their order, from 1 on. The last step is that `d`
/// ends in what is wanted.
pub fn check(d: &Derivation, place: &Place, haves: &[Guarantee], want: &Guarantee) -> Verdict
    requires fits { CanCheck place.now haves.now want.now d.now }
    requires few { conversions d.now < 4294967290 }
    ensures yes { (result ≡ Verdict.Yes) ↔ IsDerivation place.now haves.now want.now d.now }
    ensures no { (step : ℕ) → (result ≡ Verdict.No step) ↔
        FailsFirst place.now haves.now want.now d.now step }
{
    match first_failing(d, place, haves, want) {
        Some(step) => Verdict::No { step },
        None => Verdict::Yes,
    }
}

fn first_failing(
    d: &Derivation,
    place: &Place,
    haves: &[Guarantee],
    want: &Guarantee,
) -> Option<u32>
    requires fits { CanCheck place.now haves.now want.now d.now }
    requires few { conversions d.now < 4294967290 }
    ensures some { IfSome result (λ step. FailsFirst place.now haves.now want.now d.now step) }
    ensures none { IsNone result → IsDerivation place.now haves.now want.now d.now }
{
    let before = d.before.items();
    let after = d.after.items();
    let sched = 1 + before.len() as u32;
    if !starts(haves, d.sched.port, &d.from) {
        return Some(0);
    }
    if let Some(at) = first_wrong(&d.from, before) {
        return Some(1 + at as u32);
    }
    if !is_step(place, &reached(&d.from, before), &d.sched) {
        return Some(sched);
    }
    if let Some(at) = first_wrong(&d.sched.to, after) {
        return Some(sched + 1 + at as u32);
    }
    if !is_same(&d.last(), want) {
        return Some(sched + 1 + after.len() as u32);
    }
    None
}

/// Whether the port has this guarantee.
fn starts(haves: &[Guarantee], port: u8, from: &Guarantee) -> bool
    ensures { IsTrue result ↔ (slice_get haves.now port ≡ Some from.now) }
{
    match haves.get(port as usize) {
        Some(have) => is_same(have, from),
        None => false,
    }
}

fn is_same(g: &Guarantee, h: &Guarantee) -> bool
    ensures { IsTrue result ↔ (g.now ≡ h.now) }
{
    g == h
}

/// Whether the scheduler step is one of the place, from `g`.
fn is_step(place: &Place, g: &Guarantee, step: &SchedStep) -> bool
    requires config { ConfigInRange place.now.config }
    requires terms { TermsInRange place.now.terms }
    requires from { IsValid g.now }
    requires to { IsValid step.now.to }
    ensures { IsTrue result ↔ LendsAt place.now g.now step.now }
{
    step.kind == place.config.kind() && lends(place, step.port, g, &step.to)
}

/// The place of the first step that is no conversion of what those before it reach.
fn first_wrong(from: &Guarantee, steps: &[Step]) -> Option<usize>
    requires from { IsValid from.now }
    requires steps { AreValid steps.now }
    ensures { FindsWrong from.now steps.now result }
{
    let mut reached = *from;
    for at in 0..steps.len() {
        let step = steps[at];
        if !converts(step.rule, &reached, &step.to) {
            return Some(at);
        }
        reached = step.to;
    }
    None
}

/// Where the steps lead.
fn reached(from: &Guarantee, steps: &[Step]) -> Guarantee
    ensures { result ≡ end_of from.now steps.now }
{
    match steps.last() {
        Some(step) => step.to,
        None => *from,
    }
}
