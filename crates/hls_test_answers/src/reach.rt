// Who sits below whom, and how many schedulers stand above a place.
use crate::{Hierarchy, Seat};
use hls_chron::{Config, Name};

/// What is counted of the schedulers on a path.
#[derive(Clone, Copy, Debug, PartialEq, Eq)]
pub enum Counted {
    /// Each of them.
    All,
    /// Those of fair queueing.
    Shares,
}

/// How much a scheduler counts.
pub fn counts(counted: Counted, config: &Config) -> u32 {
    match (counted, *config) {
        (Counted::All, _) | (Counted::Shares, Config::Sfq { .. }) => 1,
        _ => 0,
    }
}

/// Whether a name is the one above or, in at most so many steps, below it.
pub fn is_within(seats: &[Seat], steps: usize, above: &Name, name: &Name) -> bool {
    if name == above {
        return true;
    }
    if steps == 0 {
        return false;
    }
    for seat in seats {
        if let Some(sched) = seat.sched {
            if seat.child == *name && is_within(seats, steps - 1, above, &sched) {
                return true;
            }
        }
    }
    false
}

/// The most that the schedulers count on a path of at most so many from the processor to the one of a name, itself
/// included.
pub fn most_to(
    hierarchy: &Hierarchy,
    seats: &[Seat],
    counted: Counted,
    steps: usize,
    name: &Name,
) -> u32 {
    let Some(sched) = hierarchy.scheduler(name) else {
        return 0;
    };
    if steps == 0 {
        return 0;
    }
    let mut most = 0;
    for seat in seats {
        if let Some(above) = seat.sched {
            if seat.child == *name {
                most = most.max(most_to(hierarchy, seats, counted, steps - 1, &above));
            }
        }
    }
    counts(counted, &sched.config).saturating_add(most)
}
