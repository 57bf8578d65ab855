// How many ticks of a period a reservation is to have.
ghost use Rattle.std.specs.Prelude.{◌≡◌, ◌≢◌, ◌≤◌, ◌^◌, ◌↔◌, ℕ, IsTrue};
ghost use Rattle.hls_guarantee.specs.Limits.{IsReservation, IsShare, IsValid};
ghost use Rattle.hls_offer_laws.specs.Candidates.{
  IsDirectSize,
  IsLeast,
  IsSpreadSize,
  Provides,
  Slides,
  Spreads,
};

use hls_frac::Frac;
use hls_guarantee::Guarantee;

/// The ticks of a period of `y` that are computed at once, if no more than `y`.
pub fn direct_size(wanted: &Guarantee, y: u32) -> Option<u32>
    requires wanted { IsValid wanted.now }
    requires some { 1 ≤ y }
    requires size { y ≤ 20000 }
    ensures { (x : ℕ) → (result ≡ Some x) ↔ (IsDirectSize wanted.now x y × (x ≤ y)) }
{
    match *wanted {
        Guarantee::Null => Some(1),
        Guarantee::Resb {
            hard: false,
            x: ticks,
            y: period,
        } => {
            if y == period {
                Some(ticks)
            } else {
                sliding_size(ticks, period, y)
            }
        }
        Guarantee::Resc {
            hard: false,
            x: ticks,
            y: period,
        } => sliding_size(ticks, period, y),
        Guarantee::Psbe { s, d } => providing_size(&s, &d, y),
        _ => None,
    }
}

/// The ticks of a period of `y` that are found by halving, if no more than `y`.
pub fn spread_size(wanted: &Guarantee, y: u32) -> Option<u32>
    requires wanted { IsValid wanted.now }
    requires some { 1 ≤ y }
    requires size { y ≤ 20000 }
    ensures { (x : ℕ) → (result ≡ Some x) ↔ (IsSpreadSize wanted.now x y × (x ≤ y)) }
{
    match *wanted {
        Guarantee::Resb {
            hard: false,
            x: ticks,
            y: period,
        } if y != period => Some(least_spread(ticks, period, y)),
        Guarantee::Resc {
            hard: false,
            x: ticks,
            y: period,
        } => Some(least_spread(ticks, period, y)),
        _ => None,
    }
}

/// The least number of ticks of each block of `y` that are `ticks` of any `period`, if no more than `y`.
fn sliding_size(ticks: u32, period: u32, y: u32) -> Option<u32>
    requires { IsReservation ticks period }
    ensures { (x : ℕ) → (result ≡ Some x) ↔ (IsLeast (λ size. Slides ticks period size y) x × (x ≤ y)) }
{
    up_to(ticks.max(y.saturating_sub((period - ticks) / 2)) as u128, y)
}

/// The least number of ticks of each block of `y` that provides the share `s` with the error `d`, if no more than `y`.
fn providing_size(s: &Frac, d: &Frac, y: u32) -> Option<u32>
    requires share { IsShare (10 ^ 13) (10 ^ 8) s.now d.now }
    requires size { y ≤ 20000 }
    ensures { (x : ℕ) → (result ≡ Some x) ↔ (IsLeast (λ size. Provides s.now d.now size y) x × (x ≤ y)) }
{
    let by_rate = (s.num * y as u128).div_ceil(s.den);
    let slack = d.num * s.den / (2 * s.num * d.den);
    up_to(by_rate.max((y as u128).saturating_sub(slack)), y)
}

fn up_to(size: u128, y: u32) -> Option<u32>
    ensures { (x : ℕ) → (result ≡ Some x) ↔ ((x ≡ size) × (x ≤ y)) }
{
    if size > y as u128 {
        return None;
    }
    Some(size as u32)
}

/// The least number of ticks of each block of `y` whose share gives `ticks` of any `period`: it gives so many from
/// some number on.
fn least_spread(ticks: u32, period: u32, y: u32) -> u32
    requires wanted { IsReservation ticks period }
    requires some { 1 ≤ y }
    requires size { y ≤ 20000 }
    ensures least { IsLeast (λ size. Spreads ticks period size y) result }
    ensures fits { result ≤ y }
{
    let mut low = 1;
    let mut high = y;
    while low < high {
        let middle = (low + high) / 2;
        if spreads(ticks, period, middle, y) {
            high = middle;
        } else {
            low = middle + 1;
        }
    }
    low
}

/// Whether the share of `x` ticks of each block of `y` gives `ticks` of any `period`.
fn spreads(ticks: u32, period: u32, x: u32, y: u32) -> bool
    requires wanted { IsReservation ticks period }
    requires fits { x ≤ y }
    requires size { y ≤ 20000 }
    ensures { IsTrue result ↔ Spreads ticks period x y }
{
    ticks * y + x * (2 * (y - x)) <= x * period
}
