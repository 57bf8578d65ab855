// Sums of seatings.
ghost use Rattle.std.specs.Prelude.{◌<◌};

use crate::tally::Tally;
use hls_core_guesses::sum_of;
use hls_guarantee::Guarantee;

/// How many places of seatings are kept.
pub(crate) const SEATINGS: usize = 512;

/// A number that few guarantees share.
fn number_of(kept: &Guarantee) -> u32 {
    match kept {
        Guarantee::All => 0,
        Guarantee::Null => 1,
        Guarantee::Resb { x, y, .. } | Guarantee::Resc { x, y, .. } => {
            x.wrapping_mul(31).wrapping_add(*y)
        }
        Guarantee::Psbe { s, .. } => (s.num.wrapping_mul(31).wrapping_add(s.den) % 65_536) as u32,
    }
}

/// The sum over the guarantee and the letters of the name of a tally.
pub(crate) fn sum_of_seating(tally: &Tally) -> usize
    ensures { result < 512 }
{
    sum_of(number_of(&tally.kept), tally.name.bytes(), SEATINGS)
}
