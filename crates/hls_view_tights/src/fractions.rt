// The order of fractions of any size.
ghost use Rattle.std.specs.Prelude.{◌≤◌, ◌*◌, ◌↔◌, IsTrue};
ghost use Rattle.hls_frac.specs.Frac.{IsAtMost};

use hls_frac::Frac;

/// Whether a quotient is at most another: by their whole parts, or else by what is left, turned round. So no product is
/// formed that could be too large.
fn is_quotient_at_most(num: u128, den: u128, other_num: u128, other_den: u128) -> bool
    requires positive { 1 ≤ den }
    requires other { 1 ≤ other_den }
    ensures { IsTrue result ↔ num * other_den ≤ other_num * den }
{
    let whole = num / den;
    let other_whole = other_num / other_den;
    if whole != other_whole {
        return whole < other_whole;
    }
    let left = num % den;
    let other_left = other_num % other_den;
    if left == 0 {
        return true;
    }
    if other_left == 0 {
        return false;
    }
    is_quotient_at_most(other_den, other_left, den, left)
}

/// Whether a fraction is at most another.
pub(crate) fn is_fraction_at_most(one: &Frac, other: &Frac) -> bool
    ensures { IsTrue result ↔ IsAtMost one.now other.now }
{
    is_quotient_at_most(one.num, one.den, other.num, other.den)
}
