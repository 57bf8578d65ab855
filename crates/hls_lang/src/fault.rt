// Why a text is no scenario's.
use std::alloc::AllocError;
use thiserror::Error;

/// Why a line cannot stand.
#[derive(Clone, Copy, Debug, PartialEq, Eq, Error)]
pub enum Cause {
    /// A byte is neither a tab nor one of 32 to 126, and stands in no comment.
    #[error("Byte")]
    Byte,
    /// The first line that is not blank is not a header.
    #[error("Header")]
    Header,
    /// The second line that is not blank is not the horizon.
    #[error("Horizon")]
    Horizon,
    /// There are 65,536 items before this one.
    #[error("Many")]
    Many,
    /// The line ends where a token is needed.
    #[error("Short")]
    Short,
    /// A token stands after a whole item or depth.
    #[error("Extra")]
    Extra,
    /// A token is none of the words that may stand there.
    #[error("Word")]
    Word,
    /// A token is no number or fraction, or is out of its range.
    #[error("Number")]
    Number,
    /// A token is no name, or repeats the name of a perch.
    #[error("Name")]
    Name,
    /// The tick is less than an earlier one.
    #[error("Order")]
    Order,
    /// The tick is not below the horizon.
    #[error("Late")]
    Late,
}

/// Why no scenario was read.
#[derive(Debug, Drop, Error)]
pub enum ScenarioFault {
    /// The first line that cannot stand, from 1 on, and why.
    #[error("line {line}: {cause}")]
    At { line: u32, cause: Cause },
    /// There was no memory for the scenario.
    #[error(transparent)]
    Memory(AllocError),
}
