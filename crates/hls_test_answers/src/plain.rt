// A hierarchy as plain lists.
use hls_chron::{Book, Config, Name, Terms};
use hls_guarantee::Guarantee;
use std::alloc::{AllocError, Global};

/// A loaded scheduler.
#[derive(Debug, Drop)]
pub struct Scheduler {
    pub name: Name,
    pub config: Config,
    pub book: Book,
}

/// A seat that is taken: by a port of a scheduler, or by a thread.
#[derive(Clone, Copy, Debug, PartialEq, Eq)]
pub struct Seat {
    /// Who sits there.
    pub child: Name,
    pub port: u8,
    /// The scheduler whose seat it is, `None` for the processor.
    pub sched: Option<Name>,
    pub slot: u8,
    pub terms: Terms,
    pub kept: Guarantee,
}

/// Who is there and who sits where, by names. Each list has the oldest first: schedulers by load, threads by
/// admission, seats by their taking.
#[derive(Debug, Drop)]
pub struct Hierarchy {
    pub schedulers: Vec<Scheduler>,
    pub threads: Vec<Name>,
    pub seats: Vec<Seat>,
}

impl Hierarchy {
    /// Nobody is there. Takes no memory.
    pub fn new(alloc: Global) -> Hierarchy {
        Hierarchy {
            schedulers: Vec::new(alloc),
            threads: Vec::new(alloc),
            seats: Vec::new(alloc),
        }
    }

    /// The loaded scheduler of a name.
    pub fn scheduler(&self, name: &Name) -> Option<&Scheduler> {
        self.schedulers.iter().find(|sched| sched.name == *name)
    }

    /// Whether an admitted thread has the name.
    pub fn has_thread(&self, name: &Name) -> bool {
        self.threads.iter().any(|thread| thread == name)
    }

    /// Whether a loaded scheduler or an admitted thread has the name.
    pub fn has(&self, name: &Name) -> bool {
        self.scheduler(name).is_some() || self.has_thread(name)
    }

    /// Whether the seat of the processor is taken.
    pub fn has_root(&self) -> bool {
        self.seats.iter().any(|seat| seat.sched.is_none())
    }

    /// What is kept for the ports of a scheduler, in their order.
    ///
    /// # Errors
    ///
    /// Want of memory.
    pub fn haves(&self, alloc: Global, name: &Name) -> Result<Vec<Guarantee>, AllocError> {
        self.seats
            .iter()
            .filter(|seat| seat.child == *name)
            .map(|seat| seat.kept)
            .collect(alloc)
    }
}
