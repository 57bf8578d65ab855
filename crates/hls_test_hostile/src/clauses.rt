// Reports in which one clause fails, and some in which two do.
use crate::running::answer;
use hls_io::Status;
use std::alloc::{AllocError, Global};
use std::test::Fail;

const ROOT: &str = "at 0 load r fp on cpu as ALL\n= done\nby r 0 ALL CPU ALL\n";

const SHARED: &str = "at 0 load r edf on cpu as ALL\n= done\nby r 0 ALL CPU ALL\n";

const FIRST: &str = "at 0 thread a on r prio 0 as ALL\n= done\nby a 0 ALL FP ALL\n";

const UNDERIVED: &str = "at 0 thread a on r prio 0 as ALL\n= done\nby a 0 ALL FP NULL\n";

const LATER: &str = "at 1 thread b on r prio 1 as ALL\n= done\nby b 0 ALL FP NULL\n";

const HARD: &str =
    "at 0 thread a on r res 1 10 hard as RESBH 1 10\n= done\nby a 0 ALL EDF RESBH 1 10\n";

const WAKE: &str = "at 0 wake a\n= done\n";

const BURSTS: &str =
    "at 0 wake a for 1\n= done\nat 2 wake a for 1\n= done\nat 4 wake a for 1\n= done\n";

const SERVED: &str = "0..1 cpu/r/a\n";

const ASTRAY: &str = "0..1 cpu/a\n";

const HALF: &str = "0..0 cpu/r/a\n1..1 idle\n";

const IDLE: &str = "0..1 idle\n";

const EACH_OTHER: &str = "0..0 cpu/r/a\n1..1 idle\n2..2 cpu/r/a\n3..3 idle\n4..4 cpu/r/a\n";

const BOTH: &str = "a 0..1 ALL ready 2 served 2\nidle 0\n";

const TWICE: &str = "a 0..1 ALL ready 2 served 2\na 0..1 ALL ready 2 served 2\nidle 0\n";

const ASLEEP: &str = "a 0..1 ALL ready 0 served 2\nidle 0\n";

const ONE: &str = "a 0..1 ALL ready 2 served 1\nidle 1\n";

const NONE: &str = "a 0..1 ALL ready 2 served 0\nb 1..1 ALL ready 0 served 0\nidle 2\n";

const THREE: &str = "a 0..4 RESBH 1 10 ready 3 served 3\nidle 2\n";

const WRONG: &str = "a 0..1 ALL ready 2 served 1\nidle 0\n";

/// The horizon of a report, its commands, its schedule, its accounts, and what its audit comes to.
type Case = (
    u32,
    [&'static str; 4],
    &'static str,
    &'static str,
    &'static str,
);

const CASES: [Case; 11] = [
    (2, [ROOT, FIRST, WAKE, ""], SERVED, BOTH, "kept\n"),
    (
        2,
        [ROOT, FIRST, FIRST, WAKE],
        SERVED,
        TWICE,
        "broken A1 0\n",
    ),
    (2, [ROOT, FIRST, WAKE, ""], ASTRAY, BOTH, "broken A2 0\n"),
    (2, [ROOT, FIRST, "", ""], SERVED, ASLEEP, "broken A3 0\n"),
    (2, [ROOT, FIRST, WAKE, ""], HALF, ONE, "broken A4 1\n"),
    (
        5,
        [SHARED, HARD, BURSTS, ""],
        EACH_OTHER,
        THREE,
        "broken A5 4\n",
    ),
    (
        2,
        [ROOT, UNDERIVED, WAKE, ""],
        SERVED,
        BOTH,
        "broken A6 0\n",
    ),
    (2, [ROOT, FIRST, WAKE, ""], SERVED, WRONG, "broken A7 2\n"),
    (2, [ROOT, UNDERIVED, WAKE, ""], HALF, ONE, "broken A6 0\n"),
    (2, [ROOT, FIRST, WAKE, LATER], IDLE, NONE, "broken A4 0\n"),
    (
        2,
        [ROOT, UNDERIVED, WAKE, ""],
        ASTRAY,
        BOTH,
        "broken A2 0\n",
    ),
];

/// The report of a case.
fn report(alloc: Global, case: Case) -> Result<String, AllocError> {
    let (horizon, [load, thread, next, last], schedule, accounts, _) = case;
    let mut text = format!(in alloc; "hls-report 1\nhorizon {horizon}\ndepth 3\n")?;
    text.push_str(load)?;
    text.push_str(thread)?;
    text.push_str(next)?;
    text.push_str(last)?;
    text.push_str("schedule\n")?;
    text.push_str(schedule)?;
    text.push_str("accounts\n")?;
    text.push_str(accounts)?;
    text.push_str("end\n")?;
    Ok(text)
}

/// Whether the audit of a case comes to what it says.
fn comes_to_its_verdict(alloc: Global, case: Case) -> Result<bool, AllocError> {
    let (status, written) = answer(alloc, "check", report(alloc, case)?)?;
    let due = if case.4 == "kept\n" {
        Status::Done
    } else {
        Status::Broken
    };
    Ok(status == due && written.as_str() == case.4)
}

/// The first case whose audit comes to something else.
fn first_other(alloc: Global) -> Result<Option<usize>, Fail> {
    for at in 0..CASES.len() {
        if !comes_to_its_verdict(alloc, CASES[at])? {
            return Ok(Some(at));
        }
    }
    Ok(None)
}

#[test]
fn names_the_first_clause_that_fails(rt: HostRuntime) -> Result<(), Fail> {
    assert_eq!(rt; first_other(rt.alloc())?, None);
    Ok(())
}
