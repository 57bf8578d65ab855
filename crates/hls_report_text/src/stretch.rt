// Ticks in a row with the names of their path.
use hls_chron::{List, Name};

/// Ticks in a row, both ends included, and the names from the processor down to the thread that they were
/// given to; `None` where nobody was.
#[derive(Debug, Drop)]
pub struct Stretch {
    pub from: u32,
    pub to: u32,
    pub path: Option<List<Name>>,
}
