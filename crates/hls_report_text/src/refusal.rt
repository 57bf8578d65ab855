// Why a command is refused.
use hls_chron::{Kind, Name};

/// Why a command is refused, with what the test found. A name that is `None` stands for `cpu`.
#[derive(Clone, Copy, Debug, PartialEq, Eq)]
pub enum Refusal {
    /// A scheduler or a thread has the new name.
    NameTaken { name: Name },
    /// Nobody has the name.
    NoSuchName { name: Name },
    /// The name is of the other sort: a thread where a scheduler is needed, or a scheduler where a thread is.
    WrongSort { name: Option<Name> },
    /// So many schedulers are loaded, the most there can be.
    TooManyNodes { most: u32 },
    /// So many threads are admitted, the most there can be.
    TooManyThreads { most: u32 },
    /// So many seats of the scheduler are taken.
    NotEmpty { name: Name, seats: u32 },
    /// The terms are not of the scheduler's kind, or beyond its configuration.
    TermsUnfit { name: Name },
    /// A seat of the scheduler has the priority number.
    PriorityTaken { priority: u32 },
    /// So many seats are taken or held, all that there are.
    SeatsFull { name: Option<Name>, seats: u32 },
    /// The place is the moved scheduler or below it.
    Cycle { name: Name },
    /// A scheduler would have this level.
    TooDeep { level: u32 },
    /// A path would hold so many fair queueing schedulers.
    TooManyShares { count: u32 },
    /// No box of the kind is left; so many were used.
    KitEmpty { kind: Kind, used: u32 },
    /// More was asked than is free, both in parts of the scheduler's room.
    NoRoom { free: u128, asked: u128 },
    /// The seat has no derivation of at most so many conversions.
    NoDerivation { name: Name, depth: u8 },
}
