// Sums of paths.
ghost use Rattle.std.specs.Prelude.{◌≡◌, ◌%◌};
ghost use Rattle.hls_core_guesses.specs.Sums.{sum_over};
ghost use Rattle.hls_core_journal.specs.Inside.Sums.{last_place, all_places};

use hls_report_text::Path;

/// How many places of paths are kept.
pub const WAYS: usize = 1024;

/// The sum over the last of its places alone: a thread has one path at a time, but for joins.
pub fn sum_of_last(way: &Option<Path>) -> usize
    ensures { result ≡ last_place way.now % 1024 }
{
    match way {
        Some(path) => {
            let last = path.len.saturating_sub(1).min(8);
            usize::from(path.names[usize::from(last)]) % WAYS
        }
        None => 0,
    }
}

/// The sum over places.
fn sum_of(places: &[u16]) -> u32
    ensures { result ≡ sum_over 0 places.now }
{
    let mut sum: u32 = 0;
    for place in places {
        sum = sum.wrapping_mul(31).wrapping_add(u32::from(*place));
    }
    sum
}

/// The sum over all of its places, which tells the paths of a thread below a join from one another.
pub fn sum_of_all(way: &Option<Path>) -> usize
    ensures { result ≡ sum_over 0 (all_places way.now) % 1024 }
{
    match way {
        Some(path) => sum_of(&path.names) as usize % WAYS,
        None => 0,
    }
}
