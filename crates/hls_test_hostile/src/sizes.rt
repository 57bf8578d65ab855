// Reports at the limits: of as many commands as there may be, of as many ticks, and of joins on joins.
use crate::running::answer;
use hls_io::Status;
use std::alloc::{AllocError, Global};
use std::test::Fail;

/// How many commands a scenario may have.
const COMMANDS: u32 = 65_536;

/// How many joins there are, each on the two before it.
const JOINS: u32 = 58;

/// How a scenario of version 1 begins that goes on for as many ticks as there may be.
const LONGEST: &str = "hls 1\nhorizon 100000\n\
    at 0 load root fp on cpu as ALL\n\
    at 0 thread a on root prio 0 as ALL\n";

/// A thread, alone on fair queueing, for as many ticks as there may be in version 2. With turns of a quantum it may be
/// behind by as much.
const LONGEST_IN_TWO: &str = "hls 2\nhorizon 1000000\n\
    at 0 load root sfq 10 2 100 on cpu as ALL\n\
    at 0 thread a on root weight 10 as PSBE 1 100\n\
    at 0 wake a\n";

/// How the report with joins begins, with the first two of them.
const FIRST_JOINS: &str = "hls-report 1\nhorizon 9\ndepth 3\n\
    at 0 load root fp on cpu as ALL\n= done\nby root 0 ALL CPU ALL\n\
    at 0 load r rr 1 on root prio 0 as ALL\n= done\nby r 0 ALL FP ALL\n\
    at 0 load j0 join on root prio 1 as NULL , r turn as NULL\n= done\n\
    by j0 0 ALL FP NULL\nby j0 1 ALL RR NULL\n\
    at 0 load j1 join on root prio 2 as NULL , r turn as NULL\n= done\n\
    by j1 0 ALL FP NULL\nby j1 1 ALL RR NULL\n";

/// How it ends: a thread sits on the last join, and what the first two sit on is moved.
const LAST_JOIN: &str = "at 0 thread t on j57 sole as NULL\n= done\nby t 0 NULL JOIN 1 NULL\n\
    at 0 wake t\n= done\n\
    at 5 move r to root prio 3 as NULL\n= done\n\
    by r 0 ALL FP NULL\nby j0 1 NULL RR NULL\nby j1 1 NULL RR NULL\n\
    schedule\n0..8 idle\n\
    accounts\nt 0..4 NULL ready 5 served 0\nt 5..8 NULL ready 4 served 0\nidle 9\nend\n";

/// A line of a report, what stands in its place, and what `check` says of that.
type Change = (&'static str, &'static str, &'static str);

/// A report in which another line stands in place of one.
fn changed(alloc: Global, report: &str, line: &str, other: &str) -> Result<String, AllocError> {
    let mut text = String::with_capacity(alloc, report.len())?;
    for each in report.lines() {
        text.push_str(if each == line { other } else { each })?;
        text.push('\n')?;
    }
    Ok(text)
}

/// The first of these changes of a report of which `check` says something else.
fn first_other(alloc: Global, report: &str, changes: &[Change]) -> Result<Option<usize>, Fail> {
    for at in 0..changes.len() {
        let (line, other, word) = changes[at];
        let text = changed(alloc, report, line, other)?;
        let (_status, written) = answer(alloc, "check", text)?;
        if written.as_str() != word {
            return Ok(Some(at));
        }
    }
    Ok(None)
}

/// A thread that is woken and blocked again until there are no more commands.
fn wakes_and_blocks(alloc: Global) -> Result<String, AllocError> {
    let mut scenario = LONGEST.to_string(alloc)?;
    for tick in 2..COMMANDS {
        let word = if tick % 2 == 0 { "wake" } else { "block" };
        let line = format!(in alloc; "at {tick} {word} a\n")?;
        scenario.push_str(&line)?;
    }
    Ok(scenario)
}

/// A report that no run has, since the joins go below level 8.
fn joins_on_joins(alloc: Global) -> Result<String, AllocError> {
    let mut report = FIRST_JOINS.to_string(alloc)?;
    for number in 2..JOINS {
        let near = number - 1;
        let far = number - 2;
        let load = format!(in alloc;
            "load j{number} join on j{near} sole as NULL , j{far} sole as NULL"
        )?;
        let by = format!(in alloc;
            "by j{number} 0 NULL JOIN 0 NULL\nby j{number} 1 NULL JOIN 1 NULL"
        )?;
        let lines = format!(in alloc; "at 0 {load}\n= done\n{by}\n")?;
        report.push_str(&lines)?;
    }
    report.push_str(LAST_JOIN)?;
    Ok(report)
}

/// How many commands a report answers.
fn commands_in(report: &str) -> usize {
    report
        .lines()
        .filter(|line| line.starts_with("at "))
        .count()
}

const OF_COMMANDS: [Change; 5] = [
    ("", "", "kept\n"),
    ("at 65534 wake a", "at 65534 block a", "broken A3 65534\n"),
    ("at 65535 block a", "at 65535 block b", "broken A1 65535\n"),
    ("at 65535 block a", "at 65535 wake a", "broken A4 65535\n"),
    ("idle 67233", "idle 67232", "broken A7 100000\n"),
];

#[test]
fn checks_as_many_commands_as_there_may_be(rt: HostRuntime) -> Result<(), Fail> {
    let alloc = rt.alloc();
    let (status, report) = answer(alloc, "run", wakes_and_blocks(alloc)?)?;
    assert_eq!(rt; status, Status::Done);
    assert_eq!(rt; commands_in(&report), COMMANDS as usize);
    assert_eq!(rt; first_other(alloc, &report, &OF_COMMANDS)?, None);
    Ok(())
}

const OF_TICKS: [Change; 7] = [
    ("", "", "kept\n"),
    ("hls-report 2", "hls-report 1", "refused line 2 Form\n"),
    (
        "at 0 load root sfq 10 2 100 on cpu as ALL",
        "at 0 load root sfq 10 2 on cpu as ALL",
        "refused line 4 Form\n",
    ),
    (
        "0..999999 cpu/root/a",
        "0..999898 cpu/root/a\n999899..999999 idle",
        "broken A4 999999\n",
    ),
    (
        "0..999999 cpu/root/a",
        "0..999899 cpu/root/a\n999900..999999 idle",
        "broken A7 1000000\n",
    ),
    (
        "0..999999 cpu/root/a",
        "0..999998 cpu/root/a\n999999..999999 cpu/root",
        "broken A2 999999\n",
    ),
    (
        "a 0..999999 PSBE 1 100 ready 1000000 served 1000000",
        "a 0..999999 PSBE 1 100 ready 1000000 served 999999",
        "broken A7 1000000\n",
    ),
];

#[test]
fn answers_for_a_million_ticks(rt: HostRuntime) -> Result<(), Fail> {
    let alloc = rt.alloc();
    let (status, report) = answer(alloc, "run", LONGEST_IN_TWO.to_string(alloc)?)?;
    assert_eq!(rt; status, Status::Done);
    assert_eq!(rt; first_other(alloc, &report, &OF_TICKS)?, None);
    Ok(())
}

const OF_JOINS: [Change; 4] = [
    ("", "", "kept\n"),
    (
        "at 5 move r to root prio 3 as NULL",
        "at 5 move r to j57 sole as NULL",
        "broken A1 5\n",
    ),
    (
        "by j1 1 NULL RR NULL",
        "by j1 1 ALL RR NULL",
        "broken A6 5\n",
    ),
    (
        "t 0..4 NULL ready 5 served 0",
        "t 0..4 NULL ready 5 served 1",
        "broken A7 9\n",
    ),
];

#[test]
fn checks_joins_on_joins(rt: HostRuntime) -> Result<(), Fail> {
    let alloc = rt.alloc();
    let report = joins_on_joins(alloc)?;
    assert_eq!(rt; first_other(alloc, &report, &OF_JOINS)?, None);
    Ok(())
}
