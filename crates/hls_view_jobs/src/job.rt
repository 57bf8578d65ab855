// Jobs as plain data.

/// What a command says of its thread.
#[derive(Clone, Copy, Debug, PartialEq, Eq)]
pub enum Sort {
    /// The thread is ready from now on, until it was served so many ticks where that is said.
    Wakes { burst: Option<u32> },
    Blocks,
    Ends,
}

/// A command on a thread that was carried out, or a later release of a periodic wake, and its tick.
#[derive(Clone, Copy, Debug, PartialEq, Eq)]
pub struct Word {
    pub tick: u32,
    pub sort: Sort,
}

/// A wake for so many ticks, or a later release of a periodic one, and the next word on its thread, if there is one.
#[derive(Clone, Copy, Debug, PartialEq, Eq)]
pub struct Release {
    pub tick: u32,
    pub asked: u32,
    pub next: Option<Word>,
}

/// What became of a job.
#[derive(Clone, Copy, Debug, PartialEq, Eq)]
pub enum Fate {
    /// In this tick it was served the last of what it asked for.
    Done { at: u32 },
    /// This word came before it was done.
    Dropped { by: Word },
    /// The report ends before it is done.
    Open,
}

/// A wake for so many ticks, or a later release of a periodic one, and what became of it.
#[derive(Clone, Copy, Debug, PartialEq, Eq)]
pub struct Job {
    pub release: u32,
    /// For how many ticks it is.
    pub asked: u32,
    /// How many ticks it has, from its release on: those up to the one in which it is done, or else all before the
    /// next word on its thread, or before the horizon.
    pub ticks: u32,
    /// In how many of its ticks its thread is served.
    pub got: u32,
    pub fate: Fate,
    /// In how many ready ticks in a row its thread is promised what it asks for, if in any.
    pub bound: Option<u128>,
}
