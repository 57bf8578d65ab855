// Shares of fair queueing.

/// The weight of a seat, since the tick of its seating or of a later settling.
#[derive(Clone, Copy, Debug, PartialEq, Eq)]
pub struct Share {
    pub weight: u32,
    pub since: u32,
}
