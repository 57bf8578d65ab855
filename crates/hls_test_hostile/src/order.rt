// Reports in which two clauses fail, one before the other or both at one tick.
use crate::running::answer;
use hls_io::Status;
use std::alloc::{AllocError, Global};
use std::test::Fail;

/// A frame with five threads, of which two are awake and nothing is promised to them.
const BASE: &str = "hls-report 1\nhorizon 4\ndepth 3\n\
    at 0 load r wheel 3 on cpu as ALL\n= done\nby r 0 ALL CPU ALL\n\
    at 0 thread h on r slots 1 as RESCH 1 3\n= done\nby h 0 ALL WHEEL RESCH 1 3\n\
    at 0 thread c on r slots 3 as RESCH 3 3\n= done\nby c 0 ALL WHEEL RESCH 3 3\n\
    at 0 thread b on r slots 1 as NULL\n= done\nby b 0 ALL WHEEL NULL\n\
    at 0 thread d on r slots 1 as NULL\n= done\nby d 0 ALL WHEEL NULL\n\
    at 0 thread n on r slots 1 as NULL\n= done\nby n 0 ALL WHEEL NULL\n\
    at 0 wake d\n= done\nat 0 wake n\n= done\n";

/// No accounts, so that the last clause fails at the horizon.
const END: &str = "accounts\nidle 4\nend\n";

/// How one clause comes to fail at a tick: what `check` says, a command two ticks before it and one of the tick, and
/// whom those two ticks are given to. What is empty is as elsewhere.
type Failure = [&'static str; 5];

/// Failures at tick 2, of each clause but the last.
const FAILURES: [Failure; 6] = [
    ["broken A1 2\n", "", "at 2 block z\n= done\n", "", ""],
    ["broken A2 2\n", "", "", "", "2..2 cpu/d\n"],
    ["broken A3 2\n", "", "", "", "2..2 cpu/r/b\n"],
    ["broken A4 2\n", "", "at 2 wake c\n= done\n", "", ""],
    [
        "broken A5 2\n",
        "at 0 wake h for 1\n= done\n",
        "at 2 wake h for 1\n= done\n",
        "0..0 cpu/r/h\n",
        "2..2 cpu/r/h\n",
    ],
    [
        "broken A6 2\n",
        "",
        "at 2 thread u on r slots 1 as ALL\n= done\nby u 0 ALL WHEEL NULL\n",
        "",
        "",
    ],
];

/// Failures at tick 3, of the same clauses.
const LATER_FAILURES: [Failure; 6] = [
    ["", "", "at 3 block z\n= done\n", "", ""],
    ["", "", "", "", "3..3 cpu/d\n"],
    ["", "", "", "", "3..3 cpu/r/b\n"],
    ["", "", "at 3 wake c\n= done\n", "", ""],
    [
        "",
        "at 1 wake h for 1\n= done\n",
        "at 3 wake h for 1\n= done\n",
        "1..1 cpu/r/h\n",
        "3..3 cpu/r/h\n",
    ],
    [
        "",
        "",
        "at 3 thread u on r slots 1 as ALL\n= done\nby u 0 ALL WHEEL NULL\n",
        "",
        "",
    ],
];

/// No failure at tick 3.
const NONE: Failure = ["", "", "", "", ""];

/// The commands of two failures.
fn commands(alloc: Global, first: Failure, second: Failure) -> Result<String, AllocError> {
    let mut text = String::new(alloc);
    text.push_str(first[1])?;
    text.push_str(second[1])?;
    text.push_str(first[2])?;
    text.push_str(second[2])?;
    Ok(text)
}

/// A run, or the usual one where it is empty.
fn or_usual(run: &'static str, usual: &'static str) -> &'static str {
    if run.is_empty() { usual } else { run }
}

/// A schedule with the runs of a failure at tick 2 and of one at tick 3.
fn schedule(alloc: Global, first: Failure, second: Failure) -> Result<String, AllocError> {
    let mut text = "schedule\n".to_string(alloc)?;
    text.push_str(or_usual(first[3], "0..0 idle\n"))?;
    text.push_str(or_usual(second[3], "1..1 cpu/r/n\n"))?;
    text.push_str(or_usual(first[4], "2..2 idle\n"))?;
    text.push_str(or_usual(second[4], "3..3 cpu/r/n\n"))?;
    Ok(text)
}

/// Whether `check` comes to that verdict on a report with these commands and this schedule.
fn comes_to(
    alloc: Global,
    commands: &str,
    schedule: &str,
    verdict: &str,
) -> Result<bool, AllocError> {
    let mut text = BASE.to_string(alloc)?;
    text.push_str(commands)?;
    text.push_str(schedule)?;
    text.push_str(END)?;
    let (status, written) = answer(alloc, "check", text)?;
    Ok(status == Status::Broken && written.as_str() == verdict)
}

/// The first later failure of another clause with which a failure, the one at that place, is not the one that is named.
fn later_one_named(alloc: Global, place: usize, first: Failure) -> Result<Option<usize>, Fail> {
    for at in 0..LATER_FAILURES.len() {
        let second = LATER_FAILURES[at];
        let commands = commands(alloc, first, second)?;
        let schedule = schedule(alloc, first, second)?;
        if at != place && !comes_to(alloc, &commands, &schedule, first[0])? {
            return Ok(Some(at));
        }
    }
    Ok(None)
}

/// The first failure with which a later one is named.
fn first_later_named(alloc: Global) -> Result<Option<usize>, Fail> {
    for at in 0..FAILURES.len() {
        if later_one_named(alloc, at, FAILURES[at])?.is_some() {
            return Ok(Some(at));
        }
    }
    Ok(None)
}

/// Whether the first of two failures at tick 2 is named. One tick has one run.
fn names_the_first(alloc: Global, first: Failure, second: Failure) -> Result<bool, Fail> {
    let is_told = first[4].is_empty();
    if !is_told && !second[4].is_empty() {
        return Ok(true);
    }
    let given = if is_told { second } else { first };
    let commands = commands(alloc, first, second)?;
    let schedule = schedule(alloc, given, NONE)?;
    Ok(comes_to(alloc, &commands, &schedule, first[0])?)
}

/// The first failure, from that place on, which is named before one at the same tick.
fn greater_one_named(alloc: Global, place: usize, first: Failure) -> Result<Option<usize>, Fail> {
    for at in 0..FAILURES.len() {
        if place < at && !names_the_first(alloc, first, FAILURES[at])? {
            return Ok(Some(at));
        }
    }
    Ok(None)
}

/// The first failure with which a greater one at the same tick is named.
fn first_greater_named(alloc: Global) -> Result<Option<usize>, Fail> {
    for at in 0..FAILURES.len() {
        if greater_one_named(alloc, at, FAILURES[at])?.is_some() {
            return Ok(Some(at));
        }
    }
    Ok(None)
}

#[test]
fn names_the_sooner_of_two_failures(rt: HostRuntime) -> Result<(), Fail> {
    assert_eq!(rt; first_later_named(rt.alloc())?, None);
    Ok(())
}

#[test]
fn names_the_lesser_of_two_failures_at_one_tick(rt: HostRuntime) -> Result<(), Fail> {
    assert_eq!(rt; first_greater_named(rt.alloc())?, None);
    Ok(())
}
