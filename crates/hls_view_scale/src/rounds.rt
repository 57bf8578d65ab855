// Round numbers.
ghost use Rattle.std.specs.Prelude.{◌≡◌, ◌≤◌, ◌<◌, ◌+◌};
ghost use Rattle.hls_view_scale.specs.Measures.{first_not_less, nice};

/// 1, 2 and 5 times the powers of ten.
const ROUNDS: [u64; 30] = [
    1,
    2,
    5,
    10,
    20,
    50,
    100,
    200,
    500,
    1000,
    2000,
    5000,
    10_000,
    20_000,
    50_000,
    100_000,
    200_000,
    500_000,
    1_000_000,
    2_000_000,
    5_000_000,
    10_000_000,
    20_000_000,
    50_000_000,
    100_000_000,
    200_000_000,
    500_000_000,
    1_000_000_000,
    2_000_000_000,
    5_000_000_000,
];

fn first_not_less(numbers: &[u64], least: u64) -> u64
    ensures { result ≡ first_not_less numbers.now least }
{
    for number in numbers {
        if least <= *number {
            return *number;
        }
    }
    least
}

/// The least of 1, 2, 5, 10, 20, 50, .. that is not less; a number above 5,000,000,000 stands for itself.
pub fn nice(least: u64) -> u64
    ensures is { result ≡ nice least }
    ensures enough { least ≤ result }
    ensures some { 0 < result }
    ensures within { result ≤ least + 5000000000 }
{
    first_not_less(&ROUNDS, least)
}
