// What the jobs of a thread come to, as plain data.
use crate::job::Job;
use hls_chron::Name;
use hls_frac::Frac;

/// Which jobs.
#[derive(Clone, Copy, Debug, PartialEq, Eq)]
pub enum Which {
    Done,
    Dropped,
    /// Those that a wake, or a later release of a periodic one, dropped: they were unfinished when the next work came.
    ByWake,
    Open,
}

/// What is counted of a job.
#[derive(Clone, Copy, Debug, PartialEq, Eq)]
pub enum Number {
    /// For how many ticks it is.
    Asked,
    /// How many of these it did not get.
    Lack,
    /// How many ticks it has.
    Ticks,
}

/// How many ticks those jobs took that are done: the fewest, in the mean, and the first that took the most.
#[derive(Clone, Copy, Debug, PartialEq, Eq)]
pub struct Responses {
    pub best: u32,
    pub mean: Frac,
    pub longest: Job,
}

/// What the jobs of a thread come to: how many there are, by their fates; the sum of what they asked for, and of what
/// the dropped ones did not get; the least distance of two releases, and the most that one asked for; how long the
/// done ones took, and the greatest bound of those that have a tick, if each has one.
#[derive(Clone, Copy, Debug, PartialEq, Eq)]
pub struct Summary {
    pub jobs: usize,
    pub done: usize,
    pub dropped: usize,
    pub by_wake: usize,
    pub unfinished: usize,
    pub asked: u128,
    pub lost: u128,
    pub apart: Option<u32>,
    pub most: Option<u32>,
    pub responses: Option<Responses>,
    pub bound: Option<u128>,
}

/// A thread from its first tick to its last: how many commands woke it, and what its jobs come to.
#[derive(Clone, Copy, Debug, PartialEq, Eq)]
pub struct ThreadJobs {
    pub name: Name,
    pub from: u32,
    pub to: u32,
    pub wakes: usize,
    pub summary: Summary,
}
