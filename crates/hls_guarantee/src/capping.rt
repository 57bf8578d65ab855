//! Whether a list of served and unserved ticks keeps the cap of a guarantee.

ghost use Rattle.std.specs.Prelude.{◌≡◌, ℕ, ◌+◌, ◌-◌, ◌*◌, ◌^◌, ◌≤◌, ◌↔◌, IsTrue};
ghost use Rattle.hls_chron.specs.Parts.{all_parts, parts as parts_of};
ghost use Rattle.hls_chron.specs.Ticks.{one_if};
ghost use Rattle.hls_guarantee.specs.Cap.{ListKeepsCap};
ghost use Rattle.hls_guarantee.specs.Limits.{IsReservation, IsValid};
ghost use Rattle.hls_guarantee.specs.Service.{EveryPartOf};

use crate::Guarantee;
use crate::deciding::next_service;
use hls_chron::{ALL_PARTS, parts};

/// Whether a list of served and unserved ticks keeps the cap of a guarantee: the most that a hard one lets a seat get,
/// ready or not.
pub fn keeps_cap(g: &Guarantee, list: &[bool]) -> bool
    requires { IsValid g.now }
    ensures { IsTrue result ↔ ListKeepsCap g.now list.now }
{
    match *g {
        Guarantee::Resb { hard: true, x, y } => share_is_capped(x, y, list),
        Guarantee::Resc { hard: true, x, y } => windows_are_capped(x, y, list),
        _ => true,
    }
}

/// Whether no part of at most `y` ticks gets more than `x` of them.
fn windows_are_capped(x: u32, y: u32, list: &[bool]) -> bool
    requires { IsReservation x y }
    ensures { IsTrue result ↔ EveryPartOf (λ i n got. n ≤ y → got ≤ x) list.now }
{
    let mut got = 0;
    for at in 0..list.len() {
        got = next_service(list, y as usize, at, got);
        if x < got {
            return false;
        }
    }
    true
}

/// Whether no part gets more than its share of the ticks and `2 * x`.
fn share_is_capped(x: u32, y: u32, list: &[bool]) -> bool
    requires { IsReservation x y }
    ensures { IsTrue result ↔
        EveryPartOf (λ i n got. got * all_parts ≤ parts_of x y * n + 2 * x * all_parts) list.now }
{
    let whole = u128::from(ALL_PARTS);
    excess_stays(parts(x, y), whole, 2 * u128::from(x) * whole, list)
}

/// Whether no part has an excess over `most`: each tick pays `rate`, and a served one costs `whole`.
fn excess_stays(rate: u128, whole: u128, most: u128, list: &[bool]) -> bool
    requires whole { whole ≤ 10 ^ 22 }
    requires most { most ≤ 10 ^ 22 }
    ensures { IsTrue result ↔ EveryPartOf (λ i n got. got * whole ≤ rate * n + most) list.now }
{
    let mut excess = 0;
    for served in list {
        excess = excess_after(excess, rate, whole, *served);
        if most < excess {
            return false;
        }
    }
    true
}

/// The excess after a tick.
fn excess_after(excess: u128, rate: u128, whole: u128, served: bool) -> u128
    requires whole { whole ≤ 10 ^ 22 }
    requires excess { excess ≤ 10 ^ 22 }
    ensures { result ≡ excess + whole * one_if served - rate }
{
    if served {
        (excess + whole).saturating_sub(rate)
    } else {
        excess.saturating_sub(rate)
    }
}
