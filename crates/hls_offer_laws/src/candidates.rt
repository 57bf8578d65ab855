// A few numbers among which the best one of a form is.
ghost use Rattle.std.specs.Prelude.{◌≡◌, ◌≤◌, ◌^◌, ◌↔◌, ℕ, Some};
ghost use Rattle.hls_guarantee.specs.Conversions.{Covers, HasTimes};
ghost use Rattle.hls_guarantee.specs.Limits.{IsReservation, IsShare, IsValid};
ghost use Rattle.hls_offer_laws.specs.Candidates.{
  HasPeriod,
  HasTicks,
  IsLeast,
  IsMost,
  SharesTicks,
  SharesWait,
  Slides,
  SpansBlocks,
  SpansTicks,
};

use crate::lending::share_of;
use hls_frac::Frac;
use hls_guarantee::Guarantee;

/// The longest period of a reservation, in ticks.
const LONGEST: u32 = 20_000;

/// How many ticks of a block of `y`, or of any `y` in a row, what is lent names itself: of blocks of that length, or of
/// windows so many of which are no longer.
pub fn own_ticks(lent: &Guarantee, y: u32) -> Option<u32>
    requires { IsValid lent.now }
    ensures { (x : ℕ) → (result ≡ Some x) ↔ HasTicks lent.now x y }
{
    match *lent {
        Guarantee::Resb { x, y: period, .. } if y == period => Some(x),
        Guarantee::Resc { x, y: period, .. } => repeated_ticks(x, period, y),
        _ => None,
    }
}

/// The most of any `y` ticks in a row that so many windows give, of `ticks` of any `period` each, if one or more.
fn repeated_ticks(ticks: u32, period: u32, y: u32) -> Option<u32>
    requires { IsReservation ticks period }
    ensures { (x : ℕ) → (result ≡ Some x) ↔ ((1 ≤ x) × IsMost (λ more. HasTimes ticks period more y) x) }
{
    if_some(y / period * ticks)
}

/// The most of any `y` ticks in a row that the blocks of what is lent give, if one or more.
pub fn block_ticks(lent: &Guarantee, y: u32) -> Option<u32>
    requires { IsValid lent.now }
    ensures { (x : ℕ) → (result ≡ Some x) ↔ SpansTicks lent.now x y }
{
    match *lent {
        Guarantee::Resb { x, y: period, .. } => spanned_ticks(x, period, y),
        _ => None,
    }
}

/// The most of any `y` ticks in a row that blocks of `ticks` of each `period` give, if one or more.
fn spanned_ticks(ticks: u32, period: u32, y: u32) -> Option<u32>
    requires { IsReservation ticks period }
    ensures { (x : ℕ) → (result ≡ Some x) ↔ ((1 ≤ x) × IsMost (λ more. Slides more y ticks period) x) }
{
    if_some(ticks.min(y.saturating_sub(2 * (period - ticks))))
}

fn if_some(ticks: u32) -> Option<u32>
    ensures { (x : ℕ) → (result ≡ Some x) ↔ ((1 ≤ x) × (x ≡ ticks)) }
{
    if ticks == 0 {
        return None;
    }
    Some(ticks)
}

/// The most of any `y` ticks in a row that the share of what is lent gives, if one or more.
pub fn shared_ticks(lent: &Guarantee, y: u32) -> Option<u32>
    requires lent { IsValid lent.now }
    requires size { y ≤ 20000 }
    ensures { (x : ℕ) → (result ≡ Some x) ↔ SharesTicks lent.now x y }
{
    match share_of(lent) {
        Some(Guarantee::Psbe { s, d }) => most_ticks(&s, &d, y),
        _ => None,
    }
}

/// The most whole ticks in `s * y - d`, if one or more.
fn most_ticks(s: &Frac, d: &Frac, y: u32) -> Option<u32>
    requires share { IsShare (10 ^ 13) (10 ^ 8) s.now d.now }
    requires size { y ≤ 20000 }
    ensures { (x : ℕ) → (result ≡ Some x) ↔
        ((1 ≤ x) × IsMost (λ ticks. Covers s.now d.now ticks y) x) }
{
    let given = s.num * y as u128 * d.den;
    let owed = d.num * s.den;
    let most = given.saturating_sub(owed) / (s.den * d.den);
    if most == 0 {
        return None;
    }
    Some(most as u32)
}

/// The period that what is lent names itself.
pub fn own_period(lent: &Guarantee) -> Option<u32>
    ensures { (period : ℕ) → (result ≡ Some period) ↔ HasPeriod lent.now period }
{
    match *lent {
        Guarantee::Resb { y, .. } | Guarantee::Resc { y, .. } => Some(y),
        _ => None,
    }
}

/// The least number of ticks in a row that have one of those of a block, wherever in their blocks they come.
pub fn block_wait(lent: &Guarantee) -> Option<u32>
    requires { IsValid lent.now }
    ensures { (wait : ℕ) → (result ≡ Some wait) ↔ SpansBlocks lent.now wait }
{
    match *lent {
        Guarantee::Resb { x, y, .. } => Some(2 * (y - x) + 1),
        _ => None,
    }
}

/// The least number of ticks in a row of which the share of what is lent gives one, if within the limits.
pub fn shared_wait(lent: &Guarantee) -> Option<u32>
    requires { IsValid lent.now }
    ensures { (wait : ℕ) → (result ≡ Some wait) ↔ (SharesWait lent.now wait × (wait ≤ 20000)) }
{
    match share_of(lent) {
        Some(Guarantee::Psbe { s, d }) => least_wait(&s, &d),
        _ => None,
    }
}

/// The least number of ticks that is at least `(1 + d) / s`, if within the limits.
fn least_wait(s: &Frac, d: &Frac) -> Option<u32>
    requires { IsShare (10 ^ 13) (10 ^ 8) s.now d.now }
    ensures { (wait : ℕ) → (result ≡ Some wait) ↔
        (IsLeast (λ ticks. Covers s.now d.now 1 ticks) wait × (wait ≤ 20000)) }
{
    let owed = (d.den + d.num) * s.den;
    let wait = owed.div_ceil(s.num * d.den);
    if wait > LONGEST as u128 {
        return None;
    }
    Some(wait as u32)
}
