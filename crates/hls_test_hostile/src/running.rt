// Runs of the program over sources and sinks in memory.
use hls_io::{MemSink, MemSource, Status};
use hls_prog_start::start;
use std::alloc::{AllocError, Global};
use std::str;

/// How a text is read, and how what is written is taken.
#[derive(Clone, Copy)]
pub struct Streams {
    /// How many bytes a read gives.
    pub read: usize,
    /// How many bytes a write takes.
    pub write: usize,
    /// How many bytes are taken in all.
    pub room: usize,
    /// Which read fails, from 0.
    pub failing_read: u32,
    /// Which write fails, from 0.
    pub failing_write: u32,
}

/// The number of a call that is never made.
pub const NEVER: u32 = u32::MAX;

/// Room for long reports, and no fault.
pub const WIDE: Streams = Streams {
    read: 65_536,
    write: 65_536,
    room: 4_194_304,
    failing_read: NEVER,
    failing_write: NEVER,
};

/// Many short reads and writes, and no fault.
pub const SHORT: Streams = Streams {
    read: 100,
    write: 16,
    room: 4096,
    failing_read: NEVER,
    failing_write: NEVER,
};

/// Many short writes, and no read that is well.
pub const UNREADABLE: Streams = Streams {
    failing_read: 0,
    ..SHORT
};

/// The status at which a run ends, and what it writes.
pub type Due = (Status, &'static [u8]);

/// The words of a run, a text, and what comes of it.
pub type Case = (&'static [&'static str], &'static [u8], Due);

/// How a run at these words ends about a text, and what it writes.
pub fn outcome(
    alloc: Global,
    words: &[&str],
    text: Vec<u8>,
    streams: Streams,
) -> Result<(Status, Vec<u8>), AllocError> {
    let mut list = Vec::new(alloc);
    for word in words {
        list.push(word.to_string(alloc)?)?;
    }
    let failing_reads = [streams.failing_read].to_vec(alloc)?;
    let failing_writes = [streams.failing_write].to_vec(alloc)?;
    let mut source = MemSource::new(text, streams.read.max(1), failing_reads);
    let mut sink = MemSink::new(alloc, streams.room, streams.write.max(1), failing_writes)?;
    let status = start(alloc, &list, &mut source, &mut sink);
    Ok((status, sink.bytes().to_vec(alloc)?))
}

/// Whether a run at these words about a text ends and writes as is due.
pub fn ends_as(
    alloc: Global,
    words: &[&str],
    text: &[u8],
    streams: Streams,
    due: Due,
) -> Result<bool, AllocError> {
    let (status, written) = outcome(alloc, words, text.to_vec(alloc)?, streams)?;
    Ok(status == due.0 && written.as_slice() == due.1)
}

/// The first of these cases of which something else comes.
pub fn first_other(
    alloc: Global,
    cases: &[Case],
    streams: Streams,
) -> Result<Option<usize>, AllocError> {
    for at in 0..cases.len() {
        let (words, text, due) = cases[at];
        if !ends_as(alloc, words, text, streams, due)? {
            return Ok(Some(at));
        }
    }
    Ok(None)
}

/// How a run at a word ends about a text, and what it writes.
pub fn answer(alloc: Global, word: &str, text: String) -> Result<(Status, String), AllocError> {
    let (status, written) = outcome(alloc, &[word], text.into_bytes(), WIDE)?;
    let written = str::from_utf8(&written).unwrap_or("");
    Ok((status, written.to_string(alloc)?))
}
