// Sums that stand beside the list of schedulers.
ghost use Rattle.std.specs.Prelude.{◌≡◌, ◌≢◌, ◌<◌, ◌≤◌, ◌⊎◌, ℕ, true, length, map};
ghost use Rattle.std.specs.Prelude.{slice_index, get_or, AllPairs};
ghost use Rattle.hls_machine.specs.Legal.{scheduler_at};
ghost use Rattle.hls_tree_nodes.specs.Views.{place_view, seat_view};
ghost use Rattle.hls_tree_depths.specs.Inside.Sums.{sum_under, greatest_over};
ghost use Rattle.hls_tree_depths.specs.Subtrees.{sum_at};

use hls_tree_nodes::{NodeId, Place, TakenSeat};

/// The greatest sum of counts on a path to each scheduler, by its place in the list of schedulers.
pub(crate) type Sums = [u8; 64];

/// The scheduler of a place that is not the processor.
fn scheduler_of(place: Place) -> Option<usize>
    ensures { result ≡ scheduler_at (place_view place) }
{
    match place {
        Place::Processor => None,
        Place::At { scheduler, .. } => Some(scheduler),
    }
}

/// Whether a scheduler stands at a place.
fn is_at(schedulers: &[NodeId], place: usize, key: usize) -> bool
    ensures { result ≡ true → (place < length schedulers.now) × (get_or schedulers.now place 0 ≡ key) }
{
    match schedulers.get(place) {
        Some(id) => id.key() == key,
        None => false,
    }
}

/// A place where the scheduler of a place is likely to stand: the one that is given, or else the one where it is
/// found. Who uses it tests it.
fn place_near(schedulers: &[NodeId], near: usize, place: Place) -> usize {
    let Some(key) = scheduler_of(place) else {
        return near;
    };
    if is_at(schedulers, near, key) {
        return near;
    }
    for at in 0..schedulers.len() {
        if schedulers[at].key() == key {
            return at;
        }
    }
    near
}

/// A place where the scheduler of the first of these seats is likely to stand.
pub(crate) fn place_of_first(schedulers: &[NodeId], near: usize, seats: &[TakenSeat]) -> usize {
    match seats.first() {
        Some(seat) => place_near(schedulers, near, seat.place),
        None => near,
    }
}

/// The sum of a scheduler that is searched for, and 0 for what is none. Its place is noted.
fn sum_found(schedulers: &[NodeId], sums: &Sums, near: &mut usize, key: usize) -> u8
    requires few { length schedulers.now ≤ 64 }
    ensures { result ≡ sum_at schedulers.now sums.now key }
{
    for (at, id) in schedulers.iter().enumerate() {
        if id.key() == key {
            *near = at;
            return sums[at];
        }
    }
    0
}

/// The sum of a scheduler, and 0 for what is none. It is likely to stand near this place; where it does not, its own
/// is noted.
pub(crate) fn sum_near(schedulers: &[NodeId], sums: &Sums, near: &mut usize, key: usize) -> u8
    requires few { length schedulers.now ≤ 64 }
    requires apart { AllPairs (λ (k c : ℕ). k ≢ c) schedulers.now }
    ensures { result ≡ sum_at schedulers.now sums.now key }
{
    if is_at(schedulers, *near, key) {
        return sums[*near];
    }
    sum_found(schedulers, sums, near, key)
}

/// The sum of a scheduler, and 0 for what is none. It is likely to stand near this place.
pub(crate) fn sum_of(schedulers: &[NodeId], sums: &Sums, near: usize, key: usize) -> u8
    requires few { length schedulers.now ≤ 64 }
    requires apart { AllPairs (λ (k c : ℕ). k ≢ c) schedulers.now }
    ensures { result ≡ sum_at schedulers.now sums.now key }
{
    let mut near = near;
    sum_near(schedulers, sums, &mut near, key)
}

/// The sum of a parent, 0 for the processor.
pub(crate) fn sum_under(
    schedulers: &[NodeId],
    sums: &Sums,
    near: usize,
    parent: Option<usize>,
) -> u8
    requires few { length schedulers.now ≤ 64 }
    requires apart { AllPairs (λ (k c : ℕ). k ≢ c) schedulers.now }
    ensures { result ≡ sum_under (sum_at schedulers.now sums.now) parent }
{
    match parent {
        Some(key) => sum_of(schedulers, sums, near, key),
        None => 0,
    }
}

/// The greatest sum of a parent.
pub(crate) fn greatest_over(
    schedulers: &[NodeId],
    sums: &Sums,
    near: usize,
    seats: &[TakenSeat],
) -> u8
    requires few { length schedulers.now ≤ 64 }
    requires apart { AllPairs (λ (k c : ℕ). k ≢ c) schedulers.now }
    ensures { result ≡ greatest_over (sum_at schedulers.now sums.now) (map seat_view seats.now) }
{
    let mut greatest = 0u8;
    for seat in seats {
        greatest = greatest.max(sum_under(schedulers, sums, near, scheduler_of(seat.place)));
    }
    greatest
}

/// The greatest of the first so many sums.
pub(crate) fn greatest_of(sums: &Sums, count: usize) -> u8
    requires { count ≤ 64 }
    ensures most { (at : ℕ) → at < count → slice_index sums.now at ≤ result }
    ensures there { (result ≡ 0) ⊎ ((at : ℕ) × (at < count) × (slice_index sums.now at ≡ result)) }
    ensures long { length sums.now ≡ 64 }
{
    let mut greatest = 0u8;
    for at in 0..count {
        greatest = greatest.max(sums[at]);
    }
    greatest
}
