//! What holds of conversions: each function's contract is a law, and its body does nothing.

ghost use Rattle.std.specs.Prelude.{ℕ, ◌+◌, ◌*◌, ◌-◌, ◌≤◌, ◌↔◌, Bool, false, List};
ghost use Rattle.hls_frac.specs.Frac.{IsAtMost, IsProduct, IsQuotient};
ghost use Rattle.hls_guarantee.specs.Satisfaction.{Satisfies, ListSatisfies};
ghost use Rattle.hls_guarantee.specs.Cap.{KeepsCap, ListKeepsCap};
ghost use Rattle.hls_guarantee.specs.Supply.{Supplies};
ghost use Rattle.hls_guarantee.specs.Conversions.{Converts, Leads, IsError, StartsNoLater, Covers};

use crate::{Guarantee, RuleName};
use hls_frac::Frac;

/// Where a rule leads from one guarantee to another, ticks that satisfy the one satisfy the other.
pub fn conversions_keep_satisfaction(rule: RuleName, g: Guarantee, h: Guarantee)
    requires { Converts rule g h }
    ensures ticks { (served : ℕ → Bool) (lo hi : ℕ) → Satisfies g served lo hi → Satisfies h served lo hi }
    ensures list { (list : List Bool) → ListSatisfies g list → ListSatisfies h list }
{}

/// Where a rule leads from one guarantee to another, ticks that keep the cap of the one keep the other's.
pub fn conversions_keep_caps(rule: RuleName, g: Guarantee, h: Guarantee)
    requires { Converts rule g h }
    ensures ticks { (served : ℕ → Bool) (lo hi : ℕ) → KeepsCap g served lo hi → KeepsCap h served lo hi }
    ensures list { (list : List Bool) → ListKeepsCap g list → ListKeepsCap h list }
{}

/// Where a rule leads from one guarantee to another, a schedule that supplies the one supplies the other.
pub fn conversions_keep_supply(rule: RuleName, g: Guarantee, h: Guarantee)
    requires { Converts rule g h }
    ensures { (served asks : ℕ → Bool) (lo hi : ℕ) → Supplies g served asks lo hi →
        Supplies h served asks lo hi }
{}

/// By `R3` blocks of `y` ticks are windows of `2 * y - x` ticks or more.
pub fn blocks_are_longer_windows(hard: bool, x: u32, y: u32, less: u32, longer: u32)
    requires { x ≤ y }
    ensures { Leads RuleName.R3 (Guarantee.Resb hard x y) (Guarantee.Resc false less longer) ↔
        ((less ≤ x) × (2 * y - x ≤ longer)) }
{}

/// The errors of `R4` and `R5` are `m * (y - x) / y`, where `m` is `2 * x` and `x`.
pub fn errors_are_quotients(d: Frac, m: u32, x: u32, y: u32)
    requires { x ≤ y }
    ensures { IsError d m x y ↔ IsQuotient d (m * (y - x)) y }
{}

/// The order of two starts is that of two products: `first` is `d * rate`, and `second` is `error * s`.
pub fn starts_compare_as_products(
    s: Frac,
    d: Frac,
    rate: Frac,
    error: Frac,
    first: Frac,
    second: Frac,
)
    requires first { IsProduct first d rate }
    requires second { IsProduct second error s }
    ensures { StartsNoLater s d rate error ↔ IsAtMost first second }
{}

/// A share covers `x` of `y` ticks where `x + d` is at most `s * y`, here `needed` and `given`.
pub fn covers_compare_as_fractions(s: Frac, d: Frac, x: u32, y: u32, needed: Frac, given: Frac)
    requires needed { IsQuotient needed (x * d.den + d.num) d.den }
    requires given { IsQuotient given (s.num * y) s.den }
    ensures { Covers s d x y ↔ IsAtMost needed given }
{}
