//! Runs the views on reports that lie where it runs. Each line of the file `rows` has the name of a report and the
//! words of a view; for each it writes the line, the status, and what the view writes.
#![tactic(auto)]

mod viewing;

use crate::viewing::view_on;
use std::{fs, io};

fn main(rt: HostRuntime) -> io::Result<()> {
    let alloc = rt.alloc();
    let rows = fs::read_to_string(&rt, "rows")?;
    for row in rows.lines() {
        let (name, words) = row.split_once(' ').unwrap_or((row, ""));
        let file = format!(in alloc; "{name}.report")?;
        let text = fs::read_to_string(&rt, file.as_str())?;
        let shown = view_on(alloc, words, &text)?;
        println!(rt; "== {row}: {shown}")?;
    }
    Ok(())
}
