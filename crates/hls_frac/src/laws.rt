//! What holds of fractions: each function's contract is a law, and its body does nothing.

ghost use Rattle.std.specs.Prelude.{◌≡◌, ◌*◌, ◌^◌, ◌≤◌, ◌↔◌, ◌⊎◌};
ghost use Rattle.hls_frac.specs.Frac.{
  IsQuotient,
  SameValue,
  IsAtMost,
  IsSum,
  IsProduct,
  IsWithin,
  CrossFits,
  SumFits,
  ProductFits,
};

use crate::Frac;

/// Two fractions have one value exactly where they are the same struct.
pub fn values_are_structs(a: Frac, b: Frac)
    ensures { SameValue a b ↔ (a ≡ b) }
{}

/// Of two fractions one is at most the other.
pub fn order_is_total(a: Frac, b: Frac)
    ensures { IsAtMost a b ⊎ IsAtMost b a }
{}

/// Fractions that are at most each other are the same.
pub fn order_is_antisymmetric(a: Frac, b: Frac)
    ensures { IsAtMost a b → IsAtMost b a → a ≡ b }
{}

/// What is at most a middle fraction is at most what the middle is at most.
pub fn order_is_transitive(low: Frac, middle: Frac, high: Frac)
    ensures { IsAtMost low middle → IsAtMost middle high → IsAtMost low high }
{}

/// A sum grows with both of its parts: `low` is `a + b`, and `high` is `c + d`.
pub fn sum_grows(a: Frac, b: Frac, c: Frac, d: Frac, low: Frac, high: Frac)
    requires low { IsSum low a b }
    requires high { IsSum high c d }
    ensures { IsAtMost a c → IsAtMost b d → IsAtMost low high }
{}

/// A product grows with both of its parts: `low` is `a * b`, and `high` is `c * d`.
pub fn product_grows(a: Frac, b: Frac, c: Frac, d: Frac, low: Frac, high: Frac)
    requires low { IsProduct low a b }
    requires high { IsProduct high c d }
    ensures { IsAtMost a c → IsAtMost b d → IsAtMost low high }
{}

/// Lowest terms make neither number greater.
pub fn quotient_is_no_greater(f: Frac, num: u128, den: u128)
    requires positive { 1 ≤ den }
    requires quotient { IsQuotient f num den }
    ensures num { f.num ≤ num }
    ensures den { f.den ≤ den }
{}

/// Two quotients have the order of their cross products.
pub fn quotients_compare_by_cross_products(
    a: Frac,
    b: Frac,
    a_num: u128,
    a_den: u128,
    b_num: u128,
    b_den: u128,
)
    requires a_positive { 1 ≤ a_den }
    requires b_positive { 1 ≤ b_den }
    requires a { IsQuotient a a_num a_den }
    requires b { IsQuotient b b_num b_den }
    ensures order { IsAtMost a b ↔ (a_num * b_den ≤ b_num * a_den) }
    ensures same { (a ≡ b) ↔ (a_num * b_den ≡ b_num * a_den) }
{}

/// A common factor changes no quotient.
pub fn common_factor_cancels(f: Frac, num: u128, den: u128, factor: u128)
    requires { 1 ≤ factor }
    ensures { IsQuotient f (factor * num) (factor * den) ↔ IsQuotient f num den }
{}

/// Fractions with a numerator of at most 10^13 and a denominator of at most 10^8 can be added,
/// multiplied and compared.
pub fn wide_fractions_fit(a: Frac, b: Frac)
    requires a { IsWithin a (10 ^ 13) (10 ^ 8) }
    requires b { IsWithin b (10 ^ 13) (10 ^ 8) }
    ensures cross { CrossFits a b }
    ensures sum { SumFits a b }
    ensures product { ProductFits a b }
{}
