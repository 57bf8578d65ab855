// What may happen to a node in a tick.
use hls_view_tale::{Label, Standing};

/// What happens to a node in a tick, told of where it is once the commands of the tick were carried out.
#[derive(Clone, Copy, Debug, PartialEq, Eq)]
pub enum Event {
    /// Its stay begins.
    Begun,
    /// It is a thread, and is woken, by a command or by a later release of a periodic wake.
    Woken,
    /// It is a thread, and a wake or a block drops a job of it.
    Dropped,
}

/// What is asked of a tick.
#[derive(Clone, Copy, Debug, PartialEq, Eq)]
pub(crate) struct Asked {
    pub(crate) event: Event,
    pub(crate) tick: u32,
}

/// A node at one of its places, and since when it is there.
#[derive(Clone, Copy, Debug, PartialEq, Eq)]
pub(crate) struct Node {
    pub(crate) label: Label,
    pub(crate) standing: Standing,
}
