// Tallies as they are kept.
ghost use Rattle.std.specs.Prelude.{◌≡◌, ◌+◌, ◌≤◌, List, Some, true};
ghost use Rattle.hls_core_stays.specs.Tallies.{waited, open_by, lasts};
ghost use Rattle.hls_core_stays.specs.Inside.Rows.{seating_of, tally_by};
ghost use Rattle.hls_core_stays.specs.Inside.Steps.{fresh_by, noted_tally};
ghost use Rattle.hls_core_stays.specs.declared.row.Seating.{Seating as SeatingSeen};

use crate::tally::Tally;
use hls_chron::Name;
use hls_guarantee::Guarantee;
use hls_tree::NodeId;

/// What the stays of a thread have in common that begin while it keeps its seat: its name and the guarantee kept.
#[derive(Clone, Copy, Debug)]
pub(crate) struct Seating {
    pub(crate) name: Name,
    pub(crate) kept: Guarantee,
}

impl Seating {
    /// Whether it has the name and the guarantee of a tally.
    pub(crate) fn is_of(&self, tally: &Tally) -> bool
        ensures { result ≡ true → self.now ≡ seating_of tally.now }
    {
        self.name == tally.name && self.kept == tally.kept
    }
}

/// A tally without what its seating has.
#[derive(Clone, Copy, Debug)]
pub(crate) struct Row {
    pub(crate) seating: usize,
    pub(crate) thread: NodeId,
    pub(crate) since: u32,
    pub(crate) until: Option<u32>,
    pub(crate) ready: u32,
    pub(crate) ready_since: Option<u32>,
    pub(crate) served: u32,
}

// There may be a million rows.
const _: () = prove!(size_of::<Row>() == 40);

impl Row {
    /// Whether the stay is an open one of this thread.
    pub(crate) fn is_open(&self, id: NodeId) -> bool
        ensures { (seatings : List SeatingSeen) → result ≡ open_by (Some (tally_by seatings self.now)) id }
    {
        self.until.is_none() && self.thread == id
    }

    /// Whether the stay is an open one of this thread that began at this tick.
    pub(crate) fn is_fresh(&self, id: NodeId, now: u32) -> bool
        ensures { (seatings : List SeatingSeen) → result ≡ fresh_by (Some (tally_by seatings self.now)) id now }
    {
        self.is_open(id) && self.since == now
    }

    /// Notes whether the thread is ready from now on.
    pub(crate) fn note(&mut self, ready: bool, now: u32)
        requires { self.old.ready + waited now self.old.ready_since ≤ now }
        ensures noted { (seatings : List SeatingSeen) →
            tally_by seatings self.new ≡ noted_tally ready now (tally_by seatings self.old) }
        ensures seating { self.new.seating ≡ self.old.seating }
    {
        match (self.ready_since, ready) {
            (None, true) => self.ready_since = Some(now),
            (Some(since), false) => {
                self.ready += now.saturating_sub(since);
                self.ready_since = None;
            }
            _ => {}
        }
    }

    /// Whether the stay is open, or lasted a tick.
    pub(crate) fn lasts(&self) -> bool
        ensures { result ≡ lasts self.now.since self.now.until }
    {
        match self.until {
            Some(until) => self.since < until,
            None => true,
        }
    }
}
