//! Asks questions about scenarios that lie where it runs. Each line of the file `rows` has the name of a scenario and
//! the words of a question; for each it writes the line, the status, and what the program writes.
#![tactic(auto)]

mod asking;

use crate::asking::answer_on;
use std::{fs, io};

fn main(rt: HostRuntime) -> io::Result<()> {
    let alloc = rt.alloc();
    let rows = fs::read_to_string(&rt, "rows")?;
    for row in rows.lines() {
        let (name, words) = row.split_once(' ').unwrap_or((row, ""));
        let file = format!(in alloc; "{name}.scenario")?;
        let text = fs::read_to_string(&rt, file.as_str())?;
        let answer = answer_on(alloc, words, &text)?;
        println!(rt; "== {row}: {answer}")?;
    }
    Ok(())
}
