// What the words of a question ask for.

use hls_chron::{List, Name, Terms};
use hls_guarantee::Guarantee;

/// What is asked.
#[derive(Clone, Copy, Debug)]
pub enum Question {
    /// What can be promised to a thread that is new on a scheduler with these terms.
    Offer {
        /// The thread's name, which may be that of one that is admitted.
        name: Name,
        /// The scheduler's name.
        on: Name,
        terms: Terms,
    },
    /// By which terms, the cheapest ones, a guarantee can be had for a thread.
    Need {
        /// The thread's name, which may be that of one that is admitted.
        name: Name,
        wanted: Guarantee,
        /// The name of the one scheduler that is asked, or `None` where each loaded one is.
        on: Option<Name>,
    },
    /// What is left on each scheduler.
    Spare,
}

/// A question, and of which moment it is asked.
#[derive(Debug, Drop)]
pub struct Asked {
    pub question: Question,
    /// The periods of the reservations that are told, in ticks, where they are stated: 1 to 64 numbers that rise.
    pub periods: Option<List<u32>>,
    /// The tick, 0 to 99999; where there is none, that of the scenario's last command.
    pub at: Option<u32>,
    /// The most conversions of a derivation, 0 to 6, where the scenario states none itself.
    pub depth: Option<u8>,
}
