// A report that is nearly too long to be checked, and texts that are too long.
use crate::running::{Due, Streams, WIDE, outcome};
use hls_io::Status;
use std::alloc::{AllocError, Global};
use std::test::Fail;

/// How many bytes of a report `check` takes.
const LIMIT: usize = 268_435_456;

/// Long reads and writes.
const LONG_PIECES: Streams = Streams {
    read: 1_048_576,
    write: 1_048_576,
    ..WIDE
};

/// The same, with room for the longest report that is checked.
const LONG: Streams = Streams {
    room: LIMIT,
    ..LONG_PIECES
};

/// How many round robins sit on the one that is moved.
const GROUPS: u32 = 8;

/// How many threads there are, as many on each of them.
const THREADS: u32 = 256;

/// For how many ticks they are moved, so that the accounts of their stays are nearly too long.
const HORIZON: u32 = 20_100;

/// A round robin at a fixed priority scheduler, and others on it.
fn loads(alloc: Global) -> Result<String, AllocError> {
    let mut text = "at 0 load root fp on cpu as ALL\n".to_string(alloc)?;
    text.push_str("at 0 load moved rr 1 on root prio 1 as NULL\n")?;
    for group in 0..GROUPS {
        let line = format!(in alloc; "at 0 load r{group} rr 1 on moved turn as NULL\n")?;
        text.push_str(&line)?;
    }
    Ok(text)
}

/// Threads with names as long as a name may be.
fn threads(alloc: Global) -> Result<String, AllocError> {
    let mut text = String::new(alloc);
    for thread in 0..THREADS {
        let group = thread % GROUPS;
        let line = format!(in alloc; "at 0 thread thread_{thread:09} on r{group} turn as NULL\n")?;
        text.push_str(&line)?;
    }
    Ok(text)
}

/// Moves of all of them at each tick, to a priority and back.
fn moves(alloc: Global) -> Result<String, AllocError> {
    let mut text = String::new(alloc);
    for tick in 1..HORIZON {
        let priority = 1 + tick % 2;
        let line = format!(in alloc; "at {tick} move moved to root prio {priority} as NULL\n")?;
        text.push_str(&line)?;
    }
    Ok(text)
}

/// The scenario: nobody is woken, so that its report has little but accounts.
fn scenario(alloc: Global) -> Result<String, AllocError> {
    let loads = loads(alloc)?;
    let threads = threads(alloc)?;
    let moves = moves(alloc)?;
    format!(in alloc; "hls 1\nhorizon {HORIZON}\n{loads}{threads}{moves}")
}

#[test]
fn checks_a_report_that_is_nearly_too_long(rt: HostRuntime) -> Result<(), Fail> {
    let alloc = rt.alloc();
    let (status, report) = outcome(alloc, &["run"], scenario(alloc)?.into_bytes(), LONG)?;
    assert_eq!(rt; status, Status::Done);
    assert!(rt; report.len() > LIMIT / 100 * 99, "{} bytes", report.len());
    let (status, verdict) = outcome(alloc, &["check"], report, LONG_PIECES)?;
    assert_eq!(rt; status, Status::Done);
    assert_eq!(rt; verdict.as_slice(), b"kept\n".as_slice());
    Ok(())
}

/// A word, how many blanks are read at it, and what comes of that.
type Blanks = (&'static str, usize, Due);

const BLANKS: [Blanks; 4] = [
    (
        "run",
        4_194_304,
        (Status::RefusedText, b"refused line 2 Header\n"),
    ),
    ("run", 4_194_305, (Status::TooLong, b"")),
    (
        "check",
        LIMIT,
        (Status::RefusedText, b"refused line 1 Form\n"),
    ),
    ("check", LIMIT + 1, (Status::TooLong, b"")),
];

/// The first of these texts of which something else comes.
fn first_other(alloc: Global) -> Result<Option<usize>, Fail> {
    for at in 0..BLANKS.len() {
        let (word, length, due) = BLANKS[at];
        let blanks = vec![in alloc; b' '; length]?;
        let (status, written) = outcome(alloc, &[word], blanks, LONG_PIECES)?;
        if status != due.0 || written.as_slice() != due.1 {
            return Ok(Some(at));
        }
    }
    Ok(None)
}

#[test]
fn takes_no_more_than_the_limits(rt: HostRuntime) -> Result<(), Fail> {
    assert_eq!(rt; first_other(rt.alloc())?, None);
    Ok(())
}
