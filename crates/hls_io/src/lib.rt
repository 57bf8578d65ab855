//! Where bytes come from and go to, and how a run of the program ends.
//!
//! A source and a sink count their own faults, so that an answer which rests on a fault can be
//! traced to the object that failed.
#![tactic(auto)]

mod fault;
mod gathering;
mod mem_sink;
mod mem_source;
mod sink;
mod source;
mod status;
mod std_sink;
mod std_source;

pub use fault::Failed;
pub use gathering::gather;
pub use mem_sink::MemSink;
pub use mem_source::MemSource;
pub use sink::{Sink, write_all};
pub use source::{ReadError, Source, read_all};
pub use status::Status;
pub use std_sink::StdSink;
pub use std_source::StdSource;
