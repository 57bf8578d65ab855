// What the program writes at some words about a scenario.
use hls_io::{MemSink, MemSource};
use hls_offer_start::start;
use std::alloc::{AllocError, Global};
use std::str;

/// Room for an answer.
const ROOM: usize = 65_536;

/// How many bytes a read gives, and a write takes.
const PIECE: usize = 4096;

/// The words between blanks.
fn words_in(alloc: Global, line: &str) -> Result<Vec<String>, AllocError> {
    let mut words = Vec::new(alloc);
    for word in line.split_whitespace() {
        words.push(word.to_string(alloc)?)?;
    }
    Ok(words)
}

/// The status at which the program ends, and from the next line on what it writes, byte for byte.
pub fn answer_on(alloc: Global, line: &str, scenario: &str) -> Result<String, AllocError> {
    let words = words_in(alloc, line)?;
    let mut source = MemSource::new(scenario.as_bytes().to_vec(alloc)?, PIECE, Vec::new(alloc));
    let mut sink = MemSink::new(alloc, ROOM, PIECE, Vec::new(alloc))?;
    let status = start(alloc, &words, &mut source, &mut sink).code();
    let text = str::from_utf8(sink.bytes()).unwrap_or("");
    format!(in alloc; "{status}\n{text}")
}
