// The owner of the present tick's place, and for how long the places are its.
ghost use Rattle.std.specs.Prelude.{◌≡◌, ℕ, List, Option, [], None, ◌-◌, ◌<◌, ◌≤◌, nat_lt, replicate};
ghost use Rattle.hls_chron.specs.Ledger.{now_of};
ghost use Rattle.hls_kinds.specs.Frames.{owner_in};
ghost use Rattle.hls_kinds.specs.Stands.{owned_for};
ghost use Rattle.hls_wheel.specs.Owners.{AreRuns, IsStretch};

use crate::ahead::owned_ahead;
use crate::places::Places;
use hls_chron::Book;
use hls_sched::ALWAYS;

/// A tick that never comes.
const NEVER: u64 = 1 << 33;

/// A place, and how many places from it on are of its owner; 0 where that is not known.
#[derive(Clone, Copy, Debug, PartialEq, Eq)]
pub struct Run {
    pub place: u16,
    pub places: u16,
}

/// The run that was found last of each slot, and behind these of nobody.
pub type Runs = [Run; 33];

/// The owner of a tick's place, the tick before which the places are its, `NEVER` where all are, or one that is over
/// where that is not known, and the runs that are known.
#[derive(Clone, Copy)]
pub struct Stretch {
    owner: Option<u8>,
    until: u64,
    runs: Runs,
}

/// Where the run of an owner is noted.
fn run_of(owner: Option<u8>) -> usize
    ensures { result < 33 }
{
    match owner {
        Some(slot) if slot < 32 => usize::from(slot),
        _ => 32,
    }
}

impl Stretch {
    /// Of a frame where nobody owns a place, or of no places.
    pub fn unowned() -> Stretch
        ensures none { (frame now : ℕ) → IsStretch [] frame now result }
        ensures stretch { (frame now : ℕ) → IsStretch (replicate 1000 None) frame now result }
        ensures runs { (owners : List (Option ℕ)) (frame : ℕ) → AreRuns owners frame result.runs }
    {
        let run = Run {
            place: 0,
            places: 0,
        };
        Stretch {
            owner: None,
            until: NEVER,
            runs: [run; 33],
        }
    }

    /// The owner of the present tick's place by a book, and no more.
    pub fn owned(places: &Places, frame: u32, book: &Book) -> Stretch
        requires some { 0 < frame }
        requires most { frame ≤ 1000 }
        ensures { IsStretch places.now frame (now_of book.now) result }
    {
        let place = book.now() % frame;
        Stretch {
            owner: places.owner(place),
            until: 0,
            ..Stretch::unowned()
        }
    }

    /// The owner.
    pub fn owner(&self) -> Option<u8>
        ensures { result ≡ self.now.owner }
    {
        self.owner
    }

    /// Whether the places up to the present tick's, by a book, are known to be the owner's.
    pub fn lasts(&self, book: &Book) -> bool
        ensures { result ≡ nat_lt (now_of book.now) self.now.until }
    {
        u64::from(book.now()) < self.until
    }

    /// For how many ticks from the present one on, by a book, the owner of the places is the same.
    pub fn ticks(&self, places: &Places, frame: u32, book: &Book) -> u32
        requires some { 0 < frame }
        requires most { frame ≤ 1000 }
        requires here { IsStretch places.now frame (now_of book.now) self.now }
        ensures { result ≡ owned_for (owner_in places.now) frame (now_of book.now) frame }
    {
        if !self.lasts(book) {
            return owned_ahead(places, frame, book.now());
        }
        if self.until == NEVER {
            ALWAYS
        } else {
            (self.until - u64::from(book.now())) as u32
        }
    }

    /// Begins at the present tick of a book. The places are looked at where the run is not known, which is then
    /// noted.
    pub fn begin(&mut self, places: &Places, frame: u32, book: &Book)
        requires some { 0 < frame }
        requires most { frame ≤ 1000 }
        requires runs { AreRuns places.now frame self.old.runs }
        ensures { IsStretch places.now frame (now_of book.now) self.new }
    {
        let now = book.now();
        let place = now % frame;
        self.owner = places.owner(place);
        let at = run_of(self.owner);
        let run = self.runs[at];
        if run.places != 0 && u32::from(run.place) == place {
            self.until = u64::from(now) + u64::from(run.places);
            return;
        }
        let ticks = owned_ahead(places, frame, now);
        if frame <= ticks {
            self.until = NEVER;
            return;
        }
        self.until = u64::from(now) + u64::from(ticks);
        self.runs[at] = Run {
            place: place as u16,
            places: ticks as u16,
        };
    }
}
