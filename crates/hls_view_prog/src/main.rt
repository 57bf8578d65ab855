//! The program `hlsview`: reads a report from standard input, and writes a view of it to
//! standard output.
#![tactic(auto)]

use hls_io::{StdSink, StdSource};
use hls_view::view_run;
use hls_words::words_of;
use std::process::ExitCode;

fn main(rt: HostRuntime) -> ExitCode {
    let words = match words_of(&rt) {
        Ok(words) => words,
        Err(code) => return ExitCode::from(code),
    };
    let mut source = StdSource::new(rt.stdin());
    let mut sink = StdSink::new(rt.stdout());
    let status = view_run(rt.alloc(), &words, &mut source, &mut sink);
    ExitCode::from(status.code())
}
