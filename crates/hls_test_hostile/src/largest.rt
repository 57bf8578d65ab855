// The most threads for the most ticks.
use crate::running::answer;
use hls_io::Status;
use std::alloc::{AllocError, Global};
use std::test::Fail;

const HORIZON: u32 = 100_000;

/// How many round robins sit on the one at the processor.
const GROUPS: u32 = 8;

/// How many threads sit on each of them.
const MEMBERS: u32 = 32;

/// A group and one of its threads, whose turn comes at this tick and then after all others'.
fn place_of(tick: u32) -> (u32, u32) {
    (tick % GROUPS, tick / GROUPS % MEMBERS)
}

/// A round robin at the processor.
fn first_load(alloc: Global) -> Result<String, AllocError> {
    format!(in alloc; "hls 1\nhorizon {HORIZON}\nat 0 load root rr 1 on cpu as ALL\n")
}

/// A group at the processor's round robin.
fn load(alloc: Global, group: u32) -> Result<String, AllocError> {
    format!(in alloc; "at 0 load r{group} rr 1 on root turn as NULL\n")
}

/// A thread of a group, which is woken for good.
fn woken_thread(alloc: Global, group: u32, member: u32) -> Result<String, AllocError> {
    format!(in alloc;
        "at 0 thread t{group}_{member} on r{group} turn as NULL\nat 0 wake t{group}_{member}\n"
    )
}

/// The groups.
fn loads(alloc: Global) -> Result<String, AllocError> {
    let mut text = first_load(alloc)?;
    for group in 0..GROUPS {
        text.push_str(&load(alloc, group)?)?;
    }
    Ok(text)
}

/// The groups, and then the threads, in the order in which their turns come.
fn scenario(alloc: Global) -> Result<String, AllocError> {
    let mut text = loads(alloc)?;
    for turn in 0..GROUPS * MEMBERS {
        let (group, member) = place_of(turn);
        text.push_str(&woken_thread(alloc, group, member)?)?;
    }
    Ok(text)
}

/// Each thread has every 256th tick.
fn schedule(alloc: Global) -> Result<String, AllocError> {
    let mut text = "schedule\n".to_string(alloc)?;
    for tick in 0..HORIZON {
        let (group, member) = place_of(tick);
        let run = format!(in alloc; "{tick}..{tick} cpu/root/r{group}/t{group}_{member}\n")?;
        text.push_str(&run)?;
    }
    Ok(text)
}

/// How often each thread is served.
fn accounts(alloc: Global) -> Result<String, AllocError> {
    let mut text = "accounts\n".to_string(alloc)?;
    for turn in 0..GROUPS * MEMBERS {
        let (group, member) = place_of(turn);
        let served = (HORIZON - turn).div_ceil(GROUPS * MEMBERS);
        let account = format!(in alloc;
            "t{group}_{member} 0..99999 NULL ready {HORIZON} served {served}\n"
        )?;
        text.push_str(&account)?;
    }
    Ok(text)
}

/// What the report tells after the answers.
fn end_of_report(alloc: Global) -> Result<String, AllocError> {
    let mut text = schedule(alloc)?;
    text.push_str(&accounts(alloc)?)?;
    text.push_str("idle 0\nend\n")?;
    Ok(text)
}

#[test]
fn serves_the_most_threads_for_the_most_ticks(rt: HostRuntime) -> Result<(), Fail> {
    let alloc = rt.alloc();
    let (status, report) = answer(alloc, "run", scenario(alloc)?)?;
    let end = end_of_report(alloc)?;
    assert_eq!(rt; status, Status::Done);
    assert!(rt;
        report.ends_with(end.as_str()),
        "the schedule or the accounts are others"
    );
    let (status, verdict) = answer(alloc, "check", report)?;
    assert_eq!(rt; status, Status::Done);
    assert_eq!(rt; verdict.as_str(), "kept\n");
    Ok(())
}
