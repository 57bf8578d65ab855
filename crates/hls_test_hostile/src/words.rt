// The words of the command line.
use crate::running::{Case, SHORT, Streams, UNREADABLE, WIDE, ends_as, first_other, outcome};
use hls_io::Status;
use std::alloc::Global;
use std::test::Fail;

const USAGE: &[u8] = b"usage: hls run [--depth K] | check | gen N | trial N\n";

/// Words that the program does not know.
const UNKNOWN: [&[&str]; 23] = [
    &[],
    &["run", "x"],
    &["run", "--depth"],
    &["run", "--depth", "7"],
    &["run", "--depth", "03"],
    &["run", "--depth=7"],
    &["run", "--"],
    &["--depth", "2", "run"],
    &["check", "--depth", "2"],
    &["check", "x"],
    &["check", "--"],
    &["Check"],
    &["gen"],
    &["gen", ""],
    &["gen", "00"],
    &["gen", "01"],
    &["gen", "-1"],
    &["gen", "4294967296"],
    &["gen", "1", "2"],
    &["gen", "--", "1"],
    &["trial"],
    &["trial", "x"],
    &["trial", "4294967296"],
];

/// The first of these words that are known, or at which something is read.
fn first_known(alloc: Global) -> Result<Option<usize>, Fail> {
    for at in 0..UNKNOWN.len() {
        let due = (Status::Usage, USAGE);
        if !ends_as(alloc, UNKNOWN[at], b"", UNREADABLE, due)? {
            return Ok(Some(at));
        }
    }
    Ok(None)
}

#[test]
fn knows_its_words(rt: HostRuntime) -> Result<(), Fail> {
    assert_eq!(rt; first_known(rt.alloc())?, None);
    Ok(())
}

/// A guarantee that follows by one conversion.
const DEEP: &[u8] = b"hls 1\nhorizon 5\n\
    at 0 load root edf on cpu as ALL\n\
    at 0 load f fp on root res 3 10 soft as RESBS 3 10\n\
    at 0 thread t on f prio 0 as RESCS 3 17\n";

/// What is answered where none may be made.
const DEEP_REPORT: &[u8] = b"hls-report 1\nhorizon 5\ndepth 0\n\
    at 0 load root edf on cpu as ALL\n= done\nby root 0 ALL CPU ALL\n\
    at 0 load f fp on root res 3 10 soft as RESBS 3 10\n= done\n\
    by f 0 ALL EDF RESBS 3 10\n\
    at 0 thread t on f prio 0 as RESCS 3 17\n= refused 24 NoDerivation t 0\n\
    schedule\n0..4 idle\n\
    accounts\nidle 5\nend\n";

const DEPTHS: [Case; 2] = [
    (&["run", "--depth", "0"], DEEP, (Status::Done, DEEP_REPORT)),
    (&["run", "--depth=0"], DEEP, (Status::Done, DEEP_REPORT)),
];

#[test]
fn takes_a_depth(rt: HostRuntime) -> Result<(), Fail> {
    assert_eq!(rt; first_other(rt.alloc(), &DEPTHS, SHORT)?, None);
    Ok(())
}

/// How the scenario that is made from 0 begins.
const GEN_0: &[u8] = b"hls 1\nhorizon 20000\ndepth 3\n\
    at 0 load root fp on cpu as ALL\n\
    at 0 load e edf on root prio 0 as ALL\n\
    at 0 load r rr 5 on root prio 1 as NULL\n\
    at 0 load s sfq 10 5 on e res 30 100 hard as PSBE 3/10 42\n\
    at 0 thread h0 on e res 1 88 hard as RESBH 1 88\n\
    at 0 thread h1 on e res 4 77 hard as RESBH 4 77\n";

/// Its lines: the header, the horizon, the depth and 2039 commands.
const GEN_LINES: usize = 2042;

/// How many lines a text has.
fn lines_in(text: &[u8]) -> usize {
    text.iter().filter(|&&byte| byte == b'\n').count()
}

#[test]
fn makes_a_scenario_from_a_number(rt: HostRuntime) -> Result<(), Fail> {
    let alloc = rt.alloc();
    // Nothing is read, since the first read would fail.
    let streams = Streams {
        failing_read: 0,
        ..WIDE
    };
    let (status, written) = outcome(alloc, &["gen", "0"], Vec::new(alloc), streams)?;
    assert_eq!(rt; status, Status::Done);
    assert!(rt; written.starts_with(GEN_0));
    assert_eq!(rt; lines_in(&written), GEN_LINES);
    Ok(())
}

/// What is written of a scenario before the write of that number fails, 16 bytes each.
const MADE: [&[u8]; 3] = [
    b"",
    b"hls 1\nhorizon 20",
    b"hls 1\nhorizon 20000\ndepth 3\nat 0",
];

/// The first failing write before which something else is written.
fn first_made_otherwise(alloc: Global) -> Result<Option<usize>, Fail> {
    for at in 0..MADE.len() {
        let streams = Streams {
            failing_write: at as u32,
            ..UNREADABLE
        };
        let due = (Status::WriteFault, MADE[at]);
        if !ends_as(alloc, &["gen", "4294967295"], b"", streams, due)? {
            return Ok(Some(at));
        }
    }
    Ok(None)
}

#[test]
fn makes_up_to_the_first_fault(rt: HostRuntime) -> Result<(), Fail> {
    assert_eq!(rt; first_made_otherwise(rt.alloc())?, None);
    Ok(())
}

const TRIALS: [Case; 2] = [
    (
        &["trial", "0"],
        b"",
        (
            Status::Done,
            b"trial 0\ncommands 2039 done 2030 refused 9\nticks 20000 idle 10244\naudit kept\n",
        ),
    ),
    (
        &["trial", "1"],
        b"",
        (
            Status::Done,
            b"trial 1\ncommands 2039 done 2030 refused 9\nticks 20000 idle 10917\naudit kept\n",
        ),
    ),
];

#[test]
fn tries_numbers(rt: HostRuntime) -> Result<(), Fail> {
    assert_eq!(rt; first_other(rt.alloc(), &TRIALS, UNREADABLE)?, None);
    Ok(())
}
