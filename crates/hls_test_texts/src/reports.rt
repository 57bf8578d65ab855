// Reports, and texts with the first line that cannot stand.
use hls_chron::{Kind, Name};
use hls_report::{Refusal, Report, ReportFault, read_report, write_report};
use hls_report_text::put_refusal;
use std::alloc::{AllocError, Global};
use std::process::Abort;
use std::test::Fail;

/// Compares a refusal with its text, both ways.
fn writes(rt: &impl Abort, alloc: Global, one: &Refusal, text: &[u8]) -> Result<(), Fail> {
    let mut out = Vec::new(alloc);
    put_refusal(&mut out, one)?;
    assert_eq!(rt; out.as_slice(), text);
    let whole = refused(alloc, text)?;
    let again = written_again(alloc, &whole);
    assert_eq!(rt; again.as_deref(), Some(whole.as_slice()), "at {text:?}");
    Ok(())
}

/// Compares each refusal of names and terms with its text.
fn writes_what_is_wrong(rt: &impl Abort, alloc: Global, name: Name) -> Result<(), Fail> {
    writes(
        rt,
        alloc,
        &Refusal::NameTaken { name },
        b"10 NameTaken player",
    )?;
    writes(
        rt,
        alloc,
        &Refusal::NoSuchName { name },
        b"11 NoSuchName player",
    )?;
    writes(
        rt,
        alloc,
        &Refusal::WrongSort { name: Some(name) },
        b"12 WrongSort player",
    )?;
    writes(
        rt,
        alloc,
        &Refusal::WrongSort { name: None },
        b"12 WrongSort cpu",
    )?;
    writes(
        rt,
        alloc,
        &Refusal::TooManyNodes { most: 64 },
        b"13 TooManyNodes 64",
    )?;
    writes(
        rt,
        alloc,
        &Refusal::TooManyThreads { most: 256 },
        b"14 TooManyThreads 256",
    )?;
    writes(
        rt,
        alloc,
        &Refusal::NotEmpty { name, seats: 1 },
        b"15 NotEmpty player 1",
    )?;
    writes(
        rt,
        alloc,
        &Refusal::TermsUnfit { name },
        b"16 TermsUnfit player",
    )?;
    writes(
        rt,
        alloc,
        &Refusal::PriorityTaken { priority: 0 },
        b"17 PriorityTaken 0",
    )?;
    Ok(())
}

/// Compares each refusal for want of room with its text.
fn writes_what_is_full(rt: &impl Abort, alloc: Global, name: Name) -> Result<(), Fail> {
    writes(
        rt,
        alloc,
        &Refusal::SeatsFull {
            name: Some(name),
            seats: 32,
        },
        b"18 SeatsFull player 32",
    )?;
    writes(
        rt,
        alloc,
        &Refusal::SeatsFull {
            name: None,
            seats: 1,
        },
        b"18 SeatsFull cpu 1",
    )?;
    writes(rt, alloc, &Refusal::Cycle { name }, b"19 Cycle player")?;
    writes(rt, alloc, &Refusal::TooDeep { level: 9 }, b"20 TooDeep 9")?;
    writes(
        rt,
        alloc,
        &Refusal::TooManyShares { count: 5 },
        b"21 TooManyShares 5",
    )?;
    writes(
        rt,
        alloc,
        &Refusal::KitEmpty {
            kind: Kind::Rr,
            used: 64,
        },
        b"22 KitEmpty rr 64",
    )?;
    writes(
        rt,
        alloc,
        &Refusal::NoRoom {
            free: 68_415_585_730_687_317,
            asked: 68_415_585_730_687_318,
        },
        b"23 NoRoom 68415585730687317 68415585730687318",
    )?;
    writes(
        rt,
        alloc,
        &Refusal::NoDerivation { name, depth: 3 },
        b"24 NoDerivation player 3",
    )?;
    Ok(())
}

/// A report whose one command is refused.
fn refused(alloc: Global, refusal: &[u8]) -> Result<Vec<u8>, AllocError> {
    let head = b"hls-report 1\nhorizon 1\ndepth 3\nat 0 wake a\n= refused ".as_slice();
    let rest = b"\nschedule\n0..0 idle\naccounts\nidle 1\nend\n".as_slice();
    [head, refusal, rest].concat(alloc)
}

#[test]
fn writes_and_reads_each_refusal(rt: HostRuntime) -> Result<(), Fail> {
    let name = Name::read(b"player").expect(&rt, "a name");
    writes_what_is_wrong(&rt, rt.alloc(), name)?;
    writes_what_is_full(&rt, rt.alloc(), name)
}

const NO_REFUSALS: [&[u8]; 13] = [
    b"10 NameTaken cpu",
    b"10 NameTaken",
    b"10  NameTaken player",
    b"11 NameTaken player",
    b"13 TooManyNodes 63",
    b"13 TooManyNodes 064",
    b"15 NotEmpty player 4294967296",
    b"15 NotEmpty cpu 1",
    b"22 KitEmpty cpu 64",
    b"23 NoRoom 0 340282366920938463463374607431768211456",
    b"24 NoDerivation player 7",
    b"24 NoDerivation player 3 ",
    b"25 NoName player",
];

/// Compares that none of these is read as a refusal.
fn none_is_read(rt: &impl Abort, alloc: Global, cases: &[&[u8]]) -> Result<(), Fail> {
    for at in 0..cases.len() {
        let text = cases[at];
        let read = refused_in_smallest(alloc, text)?;
        assert_eq!(rt; bad_line(alloc, &read), Some(5), "at {text:?}");
    }
    Ok(())
}

#[test]
fn reads_no_other_refusal(rt: HostRuntime) -> Result<(), Fail> {
    none_is_read(&rt, rt.alloc(), &NO_REFUSALS)
}

/// The first four lines of the smallest report, and an answer that refuses.
fn refused_in_smallest(alloc: Global, text: &[u8]) -> Result<Vec<u8>, AllocError> {
    let answer = [b"= refused ".as_slice(), text].concat(alloc)?;
    with_line(alloc, SMALLEST, 4, &answer)
}

/// The smallest report of a thread that is served.
const SMALLEST: &[u8] = b"hls-report 1\n\
    horizon 1\n\
    depth 3\n\
    at 0 load root fp on cpu as ALL\n\
    = done\n\
    by root 0 ALL CPU ALL\n\
    at 0 thread a on root prio 0 as ALL\n\
    = done\n\
    by a 0 ALL FP ALL\n\
    at 0 wake a\n\
    = done\n\
    schedule\n\
    0..0 cpu/root/a\n\
    accounts\n\
    a 0..0 ALL ready 1 served 1\n\
    idle 0\n\
    end\n";

/// The report of a text that is not too long, or its fault.
fn read(alloc: Global, text: &[u8]) -> Option<Result<Report, ReportFault>> {
    if text.len() > 4_000_000 {
        return None;
    }
    Some(read_report(alloc, text))
}

/// What is written for the report that a text is of.
fn written_again(alloc: Global, text: &[u8]) -> Option<Vec<u8>> {
    if text.len() > 4_000_000 {
        return None;
    }
    match read_report(alloc, text) {
        Ok(report) => write_report(alloc, &report).ok(),
        Err(_) => None,
    }
}

/// The first line of a text that cannot stand.
fn bad_line(alloc: Global, text: &[u8]) -> Option<u32> {
    match read(alloc, text) {
        Some(Err(ReportFault::At { line })) => Some(line),
        _ => None,
    }
}

#[test]
fn reads_and_writes_the_smallest_report(rt: HostRuntime) {
    let again = written_again(rt.alloc(), SMALLEST);
    assert_eq!(rt; again.as_deref(), Some(SMALLEST));
}

/// The first so many lines of a text, and one line behind them.
fn with_line(alloc: Global, whole: &[u8], kept: u32, line: &[u8]) -> Result<Vec<u8>, AllocError> {
    let mut text = Vec::new(alloc);
    let mut left = kept;
    for byte in whole {
        if left == 0 {
            break;
        }
        text.push(*byte)?;
        if *byte == b'\n' {
            left -= 1;
        }
    }
    text.extend_from_slice(line)?;
    text.push(b'\n')?;
    Ok(text)
}

/// How many lines of a report stand before a line that cannot, and that line.
type Behind = (u32, &'static [u8]);

const BAD_LINES: [Behind; 37] = [
    (0, b"hls-report 3"),
    (0, b"hls-report 0"),
    (0, b"hls-report 01"),
    (0, b"hls-report"),
    (0, b"hls-report 1 "),
    (1, b"horizon 0"),
    (1, b"horizon 100001"),
    (1, b"horizon 01"),
    (2, b"depth 7"),
    (3, b"at 1 wake a"),
    (3, b"at 0  wake a"),
    (3, b"at 0 wake a for 0"),
    (3, b"at 0 wake a every 4 burst 2"),
    (3, b"at 0 load root sfq 4 2 1 on cpu as ALL"),
    (4, b"= gone"),
    (4, b"= refused 10 NameTaken cpu"),
    (4, b"schedule"),
    (5, b"by root 4 ALL CPU ALL"),
    (5, b"by root 0 ALL CPU"),
    (5, b"by cpu 0 ALL CPU ALL"),
    (11, b"by a 0 ALL FP ALL"),
    (12, b"0..1 cpu/root/a"),
    (12, b"1..1 idle"),
    (12, b"0..0 cpu"),
    (12, b"0..0 cpu/"),
    (12, b"0..0 root/a"),
    (12, b"0..0 cpu/a/"),
    (12, b"0..0 cpu/a/b/c/d/e/f/g/h/i/j"),
    (12, b"0..0 Idle"),
    (12, b"accounts"),
    (13, b"0..0 idle"),
    (14, b"a 0..1 ALL ready 1 served 1"),
    (14, b"a 0..0 ALL ready 1 served 4294967296"),
    (14, b"a 0..0 PSBE 2/4 1 ready 1 served 1"),
    (15, b"idle 4294967296"),
    (16, b"end "),
    (17, b"end"),
];

/// Compares that each of these lines is the first that cannot stand.
fn all_are_bad(rt: &impl Abort, alloc: Global, whole: &[u8], cases: &[Behind]) -> Result<(), Fail> {
    for at in 0..cases.len() {
        let (kept, line) = cases[at];
        let text = with_line(alloc, whole, kept, line)?;
        assert_eq!(rt; bad_line(alloc, &text), kept.checked_add(1), "at {line:?}");
    }
    Ok(())
}

#[test]
fn finds_the_bad_line(rt: HostRuntime) -> Result<(), Fail> {
    all_are_bad(&rt, rt.alloc(), SMALLEST, &BAD_LINES)
}

/// A report of the longest run in version 2, with a quantum and a periodic wake.
const LONGEST: &[u8] = b"hls-report 2\n\
    horizon 1000000\n\
    depth 3\n\
    at 0 load root sfq 4 2 2 on cpu as ALL\n\
    = done\n\
    by root 0 ALL CPU ALL\n\
    at 999999 thread a on root weight 5 as NULL\n\
    = refused 16 TermsUnfit root\n\
    at 999999 wake a every 100000 burst 1\n\
    = refused 11 NoSuchName a\n\
    schedule\n\
    0..999999 idle\n\
    accounts\n\
    idle 1000000\n\
    end\n";

#[test]
fn reads_and_writes_a_report_of_version_two(rt: HostRuntime) {
    let again = written_again(rt.alloc(), LONGEST);
    assert_eq!(rt; again.as_deref(), Some(LONGEST));
}

/// The version of the report that a text is of.
fn version_of(alloc: Global, text: &[u8]) -> Option<u8> {
    match read(alloc, text) {
        Some(Ok(report)) => Some(report.version),
        _ => None,
    }
}

#[test]
fn reads_the_version(rt: HostRuntime) {
    assert_eq!(rt; version_of(rt.alloc(), SMALLEST), Some(1));
    assert_eq!(rt; version_of(rt.alloc(), LONGEST), Some(2));
}

const BAD_LINES_OF_TWO: [Behind; 14] = [
    (1, b"horizon 0"),
    (1, b"horizon 1000001"),
    (3, b"at 1000000 wake a"),
    (3, b"at 0 load root sfq 4 2 on cpu as ALL"),
    (3, b"at 0 load root sfq 4 2 0 on cpu as ALL"),
    (3, b"at 0 load root sfq 4 2 101 on cpu as ALL"),
    (3, b"at 0 load root sfq 4 2 02 on cpu as ALL"),
    (3, b"at 0 wake a every 0 burst 1"),
    (3, b"at 0 wake a every 04 burst 1"),
    (3, b"at 0 wake a every 4 burst 100001"),
    (3, b"at 0 wake a every 4"),
    (3, b"at 0 wake a burst 1 every 4"),
    (11, b"0..1000000 idle"),
    (13, b"a 0..1000000 ALL ready 1 served 1"),
];

#[test]
fn finds_the_bad_line_in_version_two(rt: HostRuntime) -> Result<(), Fail> {
    all_are_bad(&rt, rt.alloc(), LONGEST, &BAD_LINES_OF_TWO)
}

#[test]
fn finds_where_a_text_ends_too_early(rt: HostRuntime) {
    let whole = SMALLEST.len();
    ends_too_early(&rt, rt.alloc(), 0, 1);
    ends_too_early(&rt, rt.alloc(), whole - 4, 17);
    ends_too_early(&rt, rt.alloc(), whole - 1, 17);
    ends_too_early(&rt, rt.alloc(), 12, 1);
}

/// Compares the first line that cannot stand in so much of the smallest report.
fn ends_too_early(rt: &impl Abort, alloc: Global, kept: usize, bad: u32) {
    assert!(rt; kept <= SMALLEST.len());
    assert_eq!(rt;
        bad_line(alloc, &SMALLEST[..kept]),
        Some(bad),
        "the first {kept}"
    );
}

const THREE_TICKS: &[u8] = b"hls-report 1\n\
    horizon 3\n\
    depth 0\n\
    schedule\n\
    0..0 cpu/a/b\n\
    1..1 idle\n";

/// The lines of a run behind two runs, and the first line that cannot stand.
type BadRun = (&'static [u8], u32);

const BAD_RUNS: [BadRun; 8] = [
    (b"2..2 cpu/a/b\n", 8),
    (b"2..2 cpu/c\n", 8),
    (b"2..2 idle\n", 7),
    (b"3..3 cpu/a\n", 7),
    (b"1..2 cpu/a\n", 7),
    (b"2..1 cpu/a\n", 7),
    (b"2..3 cpu/a\n", 7),
    (b"accounts\n", 7),
];

/// Compares the first line that cannot stand behind each of these runs.
fn runs_are_bad(rt: &impl Abort, alloc: Global, cases: &[BadRun]) -> Result<(), Fail> {
    for at in 0..cases.len() {
        let (line, bad) = cases[at];
        let text = [THREE_TICKS, line].concat(alloc)?;
        assert_eq!(rt; bad_line(alloc, &text), Some(bad), "at {line:?}");
    }
    Ok(())
}

#[test]
fn finds_the_bad_run(rt: HostRuntime) -> Result<(), Fail> {
    runs_are_bad(&rt, rt.alloc(), &BAD_RUNS)
}
