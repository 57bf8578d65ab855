// Who has a name.
use hls_chron::{Config, List, Name};
use hls_scenario::Perch;

/// What a name stands for.
#[derive(Clone, Copy, Debug, PartialEq, Eq)]
pub enum Sort {
    /// A scheduler with its configuration.
    Scheduler { config: Config },
    Thread,
}

/// Who has a name, and its seats, one for each port.
#[derive(Debug, Drop)]
pub struct Member {
    pub name: Name,
    pub sort: Sort,
    pub perches: List<Perch>,
}
