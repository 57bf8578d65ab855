// At how many ticks each fact holds.
ghost use Rattle.std.specs.Prelude.{◌≡◌, IfOk, length};
ghost use Rattle.hls_view_lanes.specs.Inside.Tallies as told;

use crate::tick_facts::Facts;
use hls_chron::List;
use hls_view_tale::Label;
use std::alloc::{AllocError, Global};

/// At how many ticks each fact holds of a row.
#[derive(Clone, Copy, Debug)]
pub(crate) struct Tally {
    pub(crate) here: u32,
    pub(crate) ready: u32,
    pub(crate) served: u32,
}

/// At no tick.
const NONE: Tally = Tally {
    here: 0,
    ready: 0,
    served: 0,
};

/// Of each row, and of the row for idle ticks, where no tick was counted yet.
///
/// # Errors
/// Returns `AllocError` for want of memory.
pub(crate) fn no_tallies(alloc: Global, rows: &[List<Label>]) -> Result<Vec<Tally>, AllocError>
    ensures { IfOk result (λ tallies. tallies.items ≡ told.no_tallies rows.now) }
{
    let mut tallies = Vec::new(alloc);
    for _row in rows {
        tallies.push(NONE)?;
    }
    tallies.push(NONE)?;
    Ok(tallies)
}

fn with_one(count: u32, holds: bool) -> u32
    ensures { result ≡ told.with_one count holds }
{
    if holds {
        count.saturating_add(1)
    } else {
        count
    }
}

/// A tally with the facts of a tick more.
fn with_facts(tally: &Tally, facts: &Facts) -> Tally
    ensures { result ≡ told.with_facts tally.now facts.now }
{
    Tally {
        here: with_one(tally.here, facts.here),
        ready: with_one(tally.ready, facts.ready),
        served: with_one(tally.served, facts.served),
    }
}

/// Adds the facts of a tick, each to its own tally.
pub(crate) fn add_facts(tallies: &mut [Tally], facts: &[Facts])
    requires { length facts.now ≡ length tallies.old }
    ensures { tallies.new ≡ told.all_with tallies.old facts.now }
{
    for at in 0..facts.len() {
        tallies[at] = with_facts(&tallies[at], &facts[at]);
    }
}

/// The tally at a place; none beyond the last.
pub(crate) fn tally_at(tallies: &[Tally], place: usize) -> Tally
    ensures { result ≡ told.tally_at tallies.now place }
{
    match tallies.get(place) {
        Some(tally) => *tally,
        None => NONE,
    }
}
