// What the program says of a report.
use hls_io::{MemSink, MemSource};
use hls_prog_start::start;
use std::alloc::{AllocError, Global};
use std::str;

/// Room for a word on a report.
const ROOM: usize = 64;

/// How many bytes a read gives, and a write takes.
const PIECE: usize = 4096;

/// The status at which `check` ends on a report, and what it writes.
pub fn word_on(alloc: Global, report: &str) -> Result<String, AllocError> {
    let mut words = Vec::new(alloc);
    words.push("check".to_string(alloc)?)?;
    let mut source = MemSource::new(report.as_bytes().to_vec(alloc)?, PIECE, Vec::new(alloc));
    let mut sink = MemSink::new(alloc, ROOM, PIECE, Vec::new(alloc))?;
    let status = start(alloc, &words, &mut source, &mut sink).code();
    let text = str::from_utf8(sink.bytes()).unwrap_or("");
    let line = text.lines().next().unwrap_or("");
    format!(in alloc; "{status} {line}")
}
