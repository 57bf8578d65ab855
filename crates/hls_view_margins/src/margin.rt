// Margins as plain data.
use hls_chron::Name;
use hls_frac::Frac;
use hls_guarantee::Guarantee;

/// Ticks in a row, at least one: so many from one on.
#[derive(Clone, Copy, Debug, PartialEq, Eq)]
pub struct Row {
    pub from: u32,
    pub ticks: u32,
}

/// Ticks in a row, at least one, and how many of them were served.
#[derive(Clone, Copy, Debug, PartialEq, Eq)]
pub struct Part {
    pub from: u32,
    pub ticks: u32,
    pub got: u32,
}

/// How far something lies above what it is measured by, which may be 0, or below it.
#[derive(Clone, Copy, Debug, PartialEq, Eq)]
pub enum Distance {
    Above(Frac),
    Below(Frac),
}

/// How many ticks of service could have been taken away, wherever they lie, with the guarantee still kept.
#[derive(Clone, Copy, Debug, PartialEq, Eq)]
pub enum Spare {
    /// No part is judged: nothing is guaranteed, or the thread was never ready.
    Unjudged,
    /// In some longest window each cut has a piece of more ticks than a hard guarantee allows.
    Over,
    /// The least surplus of all judged parts, and the first part that has it.
    Least { part: Part, surplus: Distance },
}

/// How many more ticks a hard seat could have had in its fullest part, which is named.
#[derive(Clone, Copy, Debug, PartialEq, Eq)]
pub struct Room {
    pub part: Part,
    pub left: Distance,
}

/// How near a stay came to its guarantee and its cap, from its first tick to its last.
#[derive(Clone, Copy, Debug, PartialEq, Eq)]
pub struct Margin {
    pub name: Name,
    pub from: u32,
    pub to: u32,
    pub kept: Guarantee,
    /// In how many of its ticks its thread is ready.
    pub ready: u32,
    /// In how many of its ticks its thread is served.
    pub served: u32,
    pub spare: Spare,
    /// `None` where the guarantee is not hard.
    pub room: Option<Room>,
    /// The first of the longest rows of ticks in all of which its thread is ready and not served.
    pub wait: Option<Row>,
    /// The first of the longest windows.
    pub window: Option<Row>,
}
