// Reports as plain data.
ghost use Rattle.std.specs.Prelude.{◌≡◌, ◌-◌, length, slice_get, take};

use crate::Refusal;
use hls_chron::{List, Name};
use hls_derive::Derivation;
use hls_guarantee::Guarantee;
use hls_scenario::Command;

/// A seat that was taken: its child, the child's port, and how the kept guarantee is derived.
#[derive(Debug, Drop)]
pub struct Seated {
    pub name: Name,
    pub port: u8,
    pub derivation: Derivation,
}

/// What became of a command.
#[derive(Debug, Drop)]
pub enum Answer {
    /// It was carried out; these seats were taken.
    Done(List<Seated>),
    /// It was refused, and changed nothing.
    Refused(Refusal),
}

/// A command, the tick before whose choice it came, and its answer.
#[derive(Debug, Drop)]
pub struct Answered {
    pub tick: u32,
    pub command: Command,
    pub answer: Answer,
}

/// The way from the processor to a thread: `len` places in the report's list of names, in the first of
/// `names`.
#[derive(Clone, Copy, Debug, PartialEq, Eq)]
pub struct Path {
    pub len: u8,
    pub names: [u16; 9],
}

impl Path {
    /// The place, in the report's list of names, of the thread that it ends in.
    pub fn last_place(&self) -> Option<u16>
        ensures { result ≡ slice_get (take self.now.len self.now.names)
            (length (take self.now.len self.now.names) - 1) }
    {
        self.names
            .iter()
            .copied()
            .take(usize::from(self.len))
            .last()
    }
}

/// Ticks in a row, both ends included, that one path or nobody was given.
#[derive(Clone, Copy, Debug, PartialEq, Eq)]
pub struct Run {
    pub from: u32,
    pub to: u32,
    /// `None` where the processor is idle.
    pub path: Option<Path>,
}

/// A stay of a thread: its ticks, both ends included, the guarantee that was kept, and in how many of these
/// ticks the thread was ready and was served.
#[derive(Clone, Copy, Debug, PartialEq, Eq)]
pub struct Account {
    pub name: Name,
    pub from: u32,
    pub to: u32,
    pub kept: Guarantee,
    pub ready: u32,
    pub served: u32,
}

/// What a run of a scenario tells. Ticks are counted from 0 to below the horizon.
#[derive(Debug, Drop)]
pub struct Report {
    /// The version of the language, 1 or 2.
    pub version: u8,
    pub horizon: u32,
    /// How many conversions a derivation had at most.
    pub depth: u8,
    /// The commands with their answers, in their order.
    pub answered: List<Answered>,
    /// The names that paths speak of.
    pub names: List<Name>,
    pub runs: List<Run>,
    pub accounts: List<Account>,
    /// How many ticks nobody was served.
    pub idle: u32,
}
