// Tallies of stays.
use hls_chron::Name;
use hls_guarantee::Guarantee;
use hls_tree::NodeId;

/// A stay of a thread: what is guaranteed for it, since which tick, before which it ended, and in how many
/// of its ticks the thread was served. Its thread was ready in so many ticks before it became ready last,
/// and in all ticks since.
#[derive(Clone, Copy, Debug)]
pub struct Tally {
    pub(crate) thread: NodeId,
    pub(crate) name: Name,
    pub(crate) kept: Guarantee,
    pub(crate) since: u32,
    pub(crate) until: Option<u32>,
    pub(crate) ready: u32,
    pub(crate) ready_since: Option<u32>,
    pub(crate) served: u32,
}
