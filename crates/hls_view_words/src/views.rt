// What the words of a command line ask for.
use hls_chron::Name;

/// What is to be shown of a report.
#[derive(Clone, Copy, Debug)]
pub enum View {
    /// A picture of the ticks from one to another; `None` for the first and for the last tick.
    Svg { from: Option<u32>, to: Option<u32> },
    /// A trace of all ticks, with so many microseconds to a tick; `None` for one.
    Trace { tick: Option<u32> },
    /// A line for each stay: how near it came to its guarantee and its cap.
    Margins,
    /// A line for each place of the hierarchy at a tick, and what is told of it; `None` for the last tick.
    Tree { at: Option<u32> },
    /// A line for each thread, or for each job of the threads of one name.
    Jobs { of: Option<Name> },
}
