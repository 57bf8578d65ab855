//! Reads reports that lie where it runs, worked ones and some with a wrong answer, named in the file `rows`, and
//! says of each whether its answers are the defined ones, whether its schedule is that of the disciplines, whether it
//! tells what its commands and runs alone give, and whether it is written again to the byte; what the program writes
//! about the same commands; and at which status, and with which word, it checks the report.
#![tactic(auto)]

mod checking;
mod repeating;

use crate::checking::word_on;
use crate::repeating::repeated;
use hls_test_report::judged;
use std::{fs, io};

fn main(rt: HostRuntime) -> io::Result<()> {
    let alloc = rt.alloc();
    let rows = fs::read_to_string(&rt, "rows")?;
    for row in rows.lines() {
        let file = format!(in alloc; "{row}.report")?;
        let text = fs::read_to_string(&rt, file.as_str())?;
        let found = judged(alloc, text.as_bytes())?;
        let words = found.words();
        let again = repeated(alloc, &text)?;
        let ends = again.words();
        let word = word_on(alloc, &text)?;
        println!(rt; "{row}: {words}, {ends}, {word}")?;
    }
    Ok(())
}

#[cfg(test)]
mod tests;
