// Traces as data.
use hls_chron::List;

/// Where something is shown: a track of a process, both by their numbers.
#[derive(Clone, Copy, Debug, PartialEq, Eq)]
pub struct Place {
    pub process: usize,
    pub track: usize,
}

/// What a slice or an instant is about.
#[derive(Clone, Copy, Debug, PartialEq, Eq)]
pub enum Category {
    /// Ticks that somebody was given.
    Run,
    /// A longest row of ticks in which a thread was ready.
    Ready,
    /// A stay of a thread.
    Stay,
    /// A command that was carried out.
    Done,
    /// A command that was refused.
    Refused,
}

/// In how many ticks of a stay its thread was ready and was served.
#[derive(Clone, Copy, Debug, PartialEq, Eq)]
pub struct Counts {
    pub ready: u32,
    pub served: u32,
}

/// Ticks in a row on a track, both ends included.
#[derive(Debug, Drop)]
pub struct Slice {
    pub category: Category,
    pub name: List<u8>,
    pub place: Place,
    pub from: u32,
    pub to: u32,
    /// Of a stay alone.
    pub counts: Option<Counts>,
}

/// What happens on a track at the begin of a tick, and the answer to it.
#[derive(Debug, Drop)]
pub struct Instant {
    pub category: Category,
    pub name: List<u8>,
    pub place: Place,
    pub tick: u32,
    pub answer: List<u8>,
}

/// What a viewer is told of.
#[derive(Debug, Drop)]
pub enum Event {
    /// The name of a process.
    ProcessName { process: usize, name: List<u8> },
    /// Where a process stands among the others.
    ProcessOrder { process: usize, order: usize },
    /// The name of a track.
    TrackName { place: Place, name: List<u8> },
    /// Where a track stands among those of its process.
    TrackOrder { place: Place, order: usize },
    Slice(Slice),
    Instant(Instant),
}

/// A trace: how many ticks there are, how many microseconds stand for one, what an audit says, and the events.
#[derive(Debug, Drop)]
pub struct Trace {
    pub horizon: u32,
    pub tick: u32,
    pub verdict: List<u8>,
    pub events: List<Event>,
}
