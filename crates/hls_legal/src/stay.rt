// Stays as plain data.
use hls_chron::Name;
use hls_guarantee::Guarantee;

/// A stay of a thread: what is guaranteed for it, since which tick, and before which it ended, `None` where
/// no command ended it.
#[derive(Clone, Copy, Debug, PartialEq, Eq)]
pub struct Stay {
    pub name: Name,
    pub kept: Guarantee,
    pub since: u32,
    pub until: Option<u32>,
}
