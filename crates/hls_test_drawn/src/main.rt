//! Draws scenarios from numbers, runs the program on each, and says how many commands were done and what the slow and
//! plain definitions find of its report.
#![tactic(auto)]

mod drawing;
mod draws;

use crate::drawing::drawn_scenario;
use hls_prog_start::report_on;
use hls_test_report::judged;
use std::{io, str};

/// How many scenarios are drawn.
const SCENARIOS: u32 = 40;

/// From which on they are of version 2 of the language.
const FIRST_OF_SECOND: u32 = 30;

/// How many commands a report tells as done.
fn done_in(report: &[u8]) -> usize {
    match str::from_utf8(report) {
        Ok(text) => text.lines().filter(|line| *line == "= done").count(),
        Err(_) => 0,
    }
}

fn main(rt: HostRuntime) -> io::Result<()> {
    let alloc = rt.alloc();
    for number in 0..SCENARIOS {
        let version = if number < FIRST_OF_SECOND { 1 } else { 2 };
        let scenario = drawn_scenario(alloc, version, number)?;
        match report_on(alloc, scenario)? {
            Some(report) => {
                let done = done_in(&report);
                let found = judged(alloc, &report)?.words();
                println!(rt; "{number}: {done} done, {found}")?;
            }
            None => println!(rt; "{number}: no report")?,
        }
    }
    Ok(())
}
