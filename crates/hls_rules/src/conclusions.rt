// What a rule concludes from a guarantee.
ghost use Rattle.std.specs.Prelude.{◌≡◌, ◌+◌, ◌*◌, ◌-◌, ◌^◌, ◌<◌, ◌≤◌, ◌↔◌, IsTrue, IfSome, IsNone, false};
ghost use Rattle.hls_frac.specs.Frac.{IsQuotient, IsAtMost};
ghost use Rattle.hls_guarantee.specs.Limits.{IsValid, IsShare, IsReservation};
ghost use Rattle.hls_guarantee.specs.Conversions.{Converts, Leads, StartsNoLater, Covers};
ghost use Rattle.hls_derive.specs.Answers.{IsStrongest};

use crate::longer::{repeats, slides_sooner, windows_of_one, windows_once};
use hls_frac::Frac;
use hls_guarantee::{Guarantee, RuleName};

/// The fraction `num / den`, in lowest terms.
pub fn quotient(num: u128, den: u128) -> Frac
    requires { 1 ≤ den }
    ensures { IsQuotient result num den }
{
    match Frac::make(num, den) {
        Some(f) => f,
        None => unreachable!(),
    }
}

/// Whether the share `s` with the error `d` starts no later than `rate` with `error`.
fn starts_no_later(s: &Frac, d: &Frac, rate: &Frac, error: &Frac) -> bool
    requires first { IsShare (10 ^ 13) (10 ^ 8) s.now d.now }
    requires second { IsShare (10 ^ 13) (10 ^ 8) rate.now error.now }
    ensures { IsTrue result ↔ StartsNoLater s.now d.now rate.now error.now }
{
    d.mul(rate).less_eq(&error.mul(s))
}

/// Whether of `y` ticks the share `s` with the error `d` is `x` or more.
fn covers(s: &Frac, d: &Frac, x: u32, y: u32) -> bool
    requires share { IsShare (10 ^ 13) (10 ^ 8) s.now d.now }
    requires size { IsReservation x y }
    ensures { IsTrue result ↔ Covers s.now d.now x y }
{
    let needed = quotient(x as u128 * d.den + d.num, d.den);
    let given = quotient(s.num * y as u128, s.den);
    needed.less_eq(&given)
}

/// Whether `h` promises no more than `g`, of the same type.
fn gives_less(g: &Guarantee, h: &Guarantee) -> bool
    requires from { IsValid g.now }
    requires to { IsValid h.now }
    ensures { IsTrue result ↔ Leads RuleName.R1 g.now h.now }
{
    match (*g, *h) {
        (
            Guarantee::Resc { hard: false, x, y },
            Guarantee::Resc {
                hard: false,
                x: fewer,
                y: longer,
            },
        ) => fewer <= x && y <= longer,
        (
            Guarantee::Resb { hard: false, x, y },
            Guarantee::Resb {
                hard: false,
                x: fewer,
                y: same,
            },
        ) => fewer <= x && y == same,
        (Guarantee::Psbe { s, d }, Guarantee::Psbe { s: rate, d: error }) => {
            rate.less_eq(&s) && starts_no_later(&s, &d, &rate, &error)
        }
        _ => false,
    }
}

/// The strongest conclusion of a rule, which equals or gives by `R1` every other one. None comes exactly
/// where no conclusion does.
pub fn strongest(rule: RuleName, g: &Guarantee) -> Option<Guarantee>
    requires { IsValid g.now }
    ensures found { IfSome result (λ h. IsStrongest rule g.now h) }
    ensures lacks { IsNone result → (h : Guarantee) → IsStrongest rule g.now h → ⊥ }
{
    match (rule, *g) {
        (RuleName::R1, Guarantee::Resb { hard: false, .. }) => Some(*g),
        (RuleName::R1, Guarantee::Resc { hard: false, .. }) => Some(*g),
        (RuleName::R1, Guarantee::Psbe { .. }) => Some(*g),
        (RuleName::R2, Guarantee::Resb { hard: true, x, y }) => {
            Some(Guarantee::Resb { hard: false, x, y })
        }
        (RuleName::R2, Guarantee::Resc { hard: true, x, y }) => {
            Some(Guarantee::Resc { hard: false, x, y })
        }
        (RuleName::R3, Guarantee::Resb { x, y, .. }) => windows_of(x, y),
        (RuleName::R4, Guarantee::Resb { x, y, .. }) => Some(share_of(x, y, 2 * x)),
        (RuleName::R5, Guarantee::Resc { x, y, .. }) => Some(share_of(x, y, x)),
        (RuleName::R7, Guarantee::Resc { hard, x, y }) => Some(Guarantee::Resb { hard, x, y }),
        (RuleName::R9, _) => Some(Guarantee::Null),
        (RuleName::R10, Guarantee::Resb { x, y, .. }) => windows_of_one(x, y),
        (RuleName::R11, Guarantee::Resc { x, y, .. }) => windows_once(x, y),
        _ => None,
    }
}

/// Soft windows of `x` ticks that blocks of `y` always hold, where they are within the limits.
fn windows_of(x: u32, y: u32) -> Option<Guarantee>
    requires { IsReservation x y }
    ensures some { IfSome result (λ h. (h ≡ Guarantee.Resc false x (2 * y - x)) × (2 * y ≤ 20000 + x)) }
    ensures none { IsNone result → 20000 + x < 2 * y }
{
    if 2 * y > 20_000 + x {
        return None;
    }
    Some(Guarantee::Resc {
        hard: false,
        x,
        y: 2 * y - x,
    })
}

/// The share `x / y` with the error `m * (y - x) / y`.
fn share_of(x: u32, y: u32, m: u32) -> Guarantee
    requires size { IsReservation x y }
    requires most { m ≤ 40000 }
    ensures { (s d : Frac) × (result ≡ Guarantee.Psbe s d) × IsQuotient s x y × IsQuotient d (m * (y - x)) y }
{
    Guarantee::Psbe {
        s: quotient(x as u128, y as u128),
        d: quotient(m as u128 * (y - x) as u128, y as u128),
    }
}

/// Whether the rule concludes `h` from `g`.
pub fn converts(rule: RuleName, g: &Guarantee, h: &Guarantee) -> bool
    requires from { IsValid g.now }
    requires to { IsValid h.now }
    ensures { IsTrue result ↔ Converts rule g.now h.now }
{
    match rule {
        RuleName::R1 => gives_less(g, h),
        RuleName::R3 => slides(g, h),
        RuleName::R6 => reserves(g, h),
        RuleName::R8 => is_part_of_all(g, h),
        RuleName::R10 => slides_sooner(g, h),
        RuleName::R11 => repeats(g, h),
        RuleName::R2 | RuleName::R4 | RuleName::R5 | RuleName::R7 | RuleName::R9 => {
            is_found(strongest(rule, g), *h)
        }
    }
}

fn is_found(found: Option<Guarantee>, h: Guarantee) -> bool
    ensures { IsTrue result ↔ (found ≡ Some h) }
{
    found == Some(h)
}

/// Whether blocks always hold such windows.
fn slides(g: &Guarantee, h: &Guarantee) -> bool
    requires from { IsValid g.now }
    requires to { IsValid h.now }
    ensures { IsTrue result ↔ Leads RuleName.R3 g.now h.now }
{
    match (*g, *h) {
        (
            Guarantee::Resb { x, y, .. },
            Guarantee::Resc {
                hard: false,
                x: fewer,
                y: longer,
            },
        ) => fewer <= x && 2 * y <= x + longer,
        _ => false,
    }
}

/// Whether a share always holds such a soft reservation.
fn reserves(g: &Guarantee, h: &Guarantee) -> bool
    requires from { IsValid g.now }
    requires to { IsValid h.now }
    ensures { IsTrue result ↔ Leads RuleName.R6 g.now h.now }
{
    match (*g, *h) {
        (Guarantee::Psbe { s, d }, Guarantee::Resb { hard: false, x, y }) => covers(&s, &d, x, y),
        (Guarantee::Psbe { s, d }, Guarantee::Resc { hard: false, x, y }) => covers(&s, &d, x, y),
        _ => false,
    }
}

/// Whether `g` is every tick, and `h` a soft reservation or a share.
fn is_part_of_all(g: &Guarantee, h: &Guarantee) -> bool
    ensures { IsTrue result ↔ Leads RuleName.R8 g.now h.now }
{
    match (*g, *h) {
        (Guarantee::All, Guarantee::Resb { hard, .. } | Guarantee::Resc { hard, .. }) => !hard,
        (Guarantee::All, Guarantee::Psbe { .. }) => true,
        _ => false,
    }
}
