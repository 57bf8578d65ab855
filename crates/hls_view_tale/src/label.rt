// What stands at a seat.
use hls_audit_clauses::Sort;
use hls_chron::{Name, Terms};
use hls_guarantee::Guarantee;

/// Who sits at a seat, by which of its ports, on which terms, and with which guarantee.
#[derive(Clone, Copy, Debug, PartialEq, Eq)]
pub struct Label {
    pub name: Name,
    /// A scheduler with its configuration, or a thread.
    pub sort: Sort,
    /// Counted from 0; a thread has one.
    pub port: usize,
    /// Those of the processor's one seat where it is the root.
    pub terms: Terms,
    pub kept: Guarantee,
}
