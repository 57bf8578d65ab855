//! Exact fractions in lowest terms.
#![tactic(auto)]

ghost use Rattle.std.specs.Prelude.{◌≡◌, ◌/◌, ◌≤◌, ◌↔◌, IfSome, IsSome, IsTrue};
ghost use Rattle.std.specs.Int.{IsGcd};

pub mod laws;

/// A fraction that is not negative, in lowest terms.
#[derive(Clone, Copy, Debug, PartialEq, Eq)]
pub struct Frac {
    pub num: u128,
    pub den: u128,
    pub ghost positive: { 1 ≤ den },
    pub ghost lowest: { IsGcd num den 1 },
}

impl Frac {
    ghost use Rattle.hls_frac.specs.Frac.{
      IsQuotient,
      IsAtMost,
      IsSum,
      IsProduct,
      CrossFits,
      SumFits,
      ProductFits,
    };

    /// The fraction `num / den`, or `None` for a denominator of 0.
    pub fn make(num: u128, den: u128) -> Option<Self>
        ensures some { IsSome result ↔ (1 ≤ den) }
        ensures value { IfSome result (λ f. IsQuotient f num den) }
    {
        if den == 0 {
            return None;
        }
        Some(Self::reduced(num, den))
    }

    /// The exact sum.
    pub fn add(&self, other: &Self) -> Self
        requires { SumFits self.now other.now }
        ensures { IsSum result self.now other.now }
    {
        let left = self.num * other.den;
        let right = other.num * self.den;
        Self::reduced(left + right, self.den * other.den)
    }

    /// The exact product.
    pub fn mul(&self, other: &Self) -> Self
        requires { ProductFits self.now other.now }
        ensures { IsProduct result self.now other.now }
    {
        Self::reduced(self.num * other.num, self.den * other.den)
    }

    /// Whether this fraction is at most the other.
    pub fn less_eq(&self, other: &Self) -> bool
        requires { CrossFits self.now other.now }
        ensures { IsTrue result ↔ IsAtMost self.now other.now }
    {
        self.num * other.den <= other.num * self.den
    }

    /// The greatest whole number that is at most this fraction.
    pub fn floor(&self) -> u128
        ensures { result ≡ self.now.num / self.now.den }
    {
        self.num / self.den
    }

    fn reduced(num: u128, den: u128) -> Self
        requires { 1 ≤ den }
        ensures { IsQuotient result num den }
    {
        let common = gcd(num, den);
        Frac {
            num: num / common,
            den: den / common,
        }
    }
}

/// The greatest common divisor, by Euclid.
fn gcd(a: u128, b: u128) -> u128
    ensures { IsGcd a b result }
{
    let mut high = a;
    let mut low = b;
    while low != 0 {
        let next = high % low;
        high = low;
        low = next;
    }
    high
}
