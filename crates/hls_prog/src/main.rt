//! The program `hls`: carries out the scenario that is read from standard input, and writes the report of it to
//! standard output.
#![tactic(auto)]

use hls_io::{StdSink, StdSource};
use hls_prog_start::start;
use hls_words::words_of;
use std::process::ExitCode;

fn main(rt: HostRuntime) -> ExitCode {
    let words = match words_of(&rt) {
        Ok(words) => words,
        Err(code) => return ExitCode::from(code),
    };
    let mut source = StdSource::new(rt.stdin());
    let mut sink = StdSink::new(rt.stdout());
    let status = start(rt.alloc(), &words, &mut source, &mut sink);
    ExitCode::from(status.code())
}
