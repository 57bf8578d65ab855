// Sums over letters.
ghost use Rattle.std.specs.Prelude.{◌≡◌, ◌<◌, ◌%◌};
ghost use Rattle.hls_core_guesses.specs.Sums.{sum_over};

/// A number below `count` that few texts share: the sum over the letters of a text, from a number on.
pub fn sum_of(number: u32, letters: &[u8], count: usize) -> usize
    requires { 0 < count }
    ensures { result ≡ sum_over number letters.now % count }
{
    let mut sum = number;
    for letter in letters {
        sum = sum.wrapping_mul(31).wrapping_add(u32::from(*letter));
    }
    sum as usize % count
}
