// Reservations, and what they may still have.

/// A reservation of `x` ticks in every `y`, since the tick of its seating or of a later settling.
#[derive(Clone, Copy, Debug, PartialEq, Eq)]
pub struct Reservation {
    pub x: u32,
    pub y: u32,
    pub since: u32,
}

/// What a reservation may still have: so many ticks up to a deadline, a tick.
#[derive(Clone, Copy, Debug, PartialEq, Eq)]
pub struct Claim {
    pub deadline: u64,
    pub budget: u32,
}
