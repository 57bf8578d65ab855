// Since when nodes are where they are.
use hls_chron::Name;

/// Which commands of the report, counted from 0, made a node and opened its present stay.
#[derive(Clone, Copy, Debug, PartialEq, Eq)]
pub struct Standing {
    pub name: Name,
    /// The one that loaded or admitted it.
    pub born: usize,
    /// The same one, or the last move of it or of a scheduler above it.
    pub opened: usize,
}
