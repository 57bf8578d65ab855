// Why a seat cannot be taken.

/// Why a seat cannot be taken on some terms; the first that applies is told.
#[derive(Clone, Copy, Debug, PartialEq, Eq)]
pub enum SeatFault {
    /// The terms are of another kind than the scheduler, or exceed its frame or total.
    Unfit,
    /// A seat has the priority number.
    PriorityTaken { priority: u32 },
    /// So many seats are taken, which are all that the scheduler has.
    Full { seats: u32 },
    /// More is asked than is free, in the scheduler's own unit.
    NoRoom { free: u128, asked: u128 },
}
