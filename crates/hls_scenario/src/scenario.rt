// Scenarios as plain data.
use hls_chron::{Config, List, Name, Terms};
use hls_guarantee::Guarantee;

/// Where a seat is taken.
#[derive(Clone, Copy, Debug, PartialEq, Eq)]
pub enum Spot {
    /// At the processor.
    Cpu,
    /// On the scheduler of this name, on these terms.
    Under { sched: Name, terms: Terms },
}

/// A seat that is asked for: where, and what is wanted of it.
#[derive(Clone, Copy, Debug, PartialEq, Eq)]
pub struct Perch {
    pub spot: Spot,
    pub want: Guarantee,
}

/// What is asked for at a tick.
#[derive(Debug, Drop)]
pub enum Command {
    /// Loads a scheduler, with one seat for each of its ports.
    Load {
        name: Name,
        config: Config,
        perches: List<Perch>,
    },
    /// Admits a thread, not ready.
    Thread {
        name: Name,
        perch: Perch,
    },
    /// Ends a thread.
    End {
        name: Name,
    },
    /// Unloads a scheduler.
    Unload {
        name: Name,
    },
    /// Moves a thread or a scheduler.
    Move {
        name: Name,
        perch: Perch,
    },
    /// Makes a thread ready, until it blocks or was served `burst` ticks. In version 2 a wake may have a release in its
    /// own tick and one in `every` so many ticks after it: from each on the thread is ready until it blocks or was
    /// served its burst since then, and what is left of one is dropped at the next.
    Wake {
        name: Name,
        every: Option<u32>,
        burst: Option<u32>,
    },
    /// Makes a thread not ready.
    Block {
        name: Name,
    },
}

/// A command, and the tick before whose choice it is carried out.
#[derive(Debug, Drop)]
pub struct Item {
    pub tick: u32,
    pub command: Command,
}

/// The version of the language, how many ticks there are, how many conversions a derivation has at most where that is
/// stated, and the commands in their order.
#[derive(Debug, Drop)]
pub struct Scenario {
    /// 1 or 2.
    pub version: u8,
    pub horizon: u32,
    pub depth: Option<u8>,
    pub items: List<Item>,
}
