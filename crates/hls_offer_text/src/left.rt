// What is left on a scheduler.

use hls_chron::List;

/// Priorities in a row, both ends included.
#[derive(Clone, Copy, Debug, PartialEq, Eq)]
pub struct Span {
    pub first: u32,
    pub last: u32,
}

/// A reservation of `x` ticks in every `y`.
#[derive(Clone, Copy, Debug, PartialEq, Eq)]
pub struct Fit {
    pub x: u32,
    pub y: u32,
}

/// What is left on a scheduler for further seats.
#[derive(Debug, Drop)]
pub enum Left {
    /// No seat.
    Full,
    /// The priorities that no seat has.
    Priorities(List<Span>),
    /// Parts of the processor, and the greatest reservations that they are enough for.
    Parts { free: u128, fits: List<Fit> },
    /// Weight.
    Weight(u128),
    /// Places of the frame.
    Slots(u128),
    /// A turn in the round.
    Turn,
    /// The one seat of a join.
    Sole,
}
