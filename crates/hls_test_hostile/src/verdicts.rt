// What `check` says of reports, and of texts that are none, and what it writes up to a fault.
use crate::running::{Case, Due, NEVER, SHORT, Streams, ends_as, first_other};
use hls_io::Status;
use std::alloc::Global;
use std::test::Fail;

/// Two threads that share the processor.
const TWO: &[u8] = b"hls 1\nhorizon 20\n\
    at 0 load root edf on cpu as ALL\n\
    at 0 thread a on root res 3 10 hard as RESBH 3 10\n\
    at 0 thread b on root res 5 10 hard as RESBH 5 10\n\
    at 0 wake a\n\
    at 0 wake b\n";

/// What `run` writes about them.
const TWO_REPORT: &[u8] = b"hls-report 1\nhorizon 20\ndepth 3\n\
    at 0 load root edf on cpu as ALL\n= done\nby root 0 ALL CPU ALL\n\
    at 0 thread a on root res 3 10 hard as RESBH 3 10\n= done\n\
    by a 0 ALL EDF RESBH 3 10\n\
    at 0 thread b on root res 5 10 hard as RESBH 5 10\n= done\n\
    by b 0 ALL EDF RESBH 5 10\n\
    at 0 wake a\n= done\n\
    at 0 wake b\n= done\n\
    schedule\n0..2 cpu/root/a\n3..7 cpu/root/b\n8..9 idle\n10..12 cpu/root/a\n\
    13..17 cpu/root/b\n18..19 idle\n\
    accounts\na 0..19 RESBH 3 10 ready 20 served 6\n\
    b 0..19 RESBH 5 10 ready 20 served 10\nidle 4\nend\n";

/// A report in which `b` is served too seldom: with its tick 18 no cut into pieces of ten ticks has five in each.
const STARVED: &[u8] = b"hls-report 1\nhorizon 20\ndepth 3\n\
    at 0 load root edf on cpu as ALL\n= done\nby root 0 ALL CPU ALL\n\
    at 0 thread a on root res 3 10 hard as RESBH 3 10\n= done\n\
    by a 0 ALL EDF RESBH 3 10\n\
    at 0 thread b on root res 5 10 hard as RESBH 5 10\n= done\n\
    by b 0 ALL EDF RESBH 5 10\n\
    at 0 wake a\n= done\n\
    at 0 wake b\n= done\n\
    schedule\n0..2 cpu/root/a\n3..7 cpu/root/b\n8..9 idle\n10..12 cpu/root/a\n\
    13..19 idle\n\
    accounts\na 0..19 RESBH 3 10 ready 20 served 6\n\
    b 0..19 RESBH 5 10 ready 20 served 5\nidle 9\nend\n";

/// A report whose accounts and idle ticks are those of another schedule.
const MISCOUNTED: &[u8] = b"hls-report 1\nhorizon 23\ndepth 3\n\
    at 0 load root edf on cpu as ALL\n= done\nby root 0 ALL CPU ALL\n\
    at 0 thread a on root res 5 10 hard as RESBH 5 10\n= done\n\
    by a 0 ALL EDF RESBH 5 10\n\
    at 0 thread c on root res 8 16 hard as RESBH 8 16\n= done\n\
    by c 0 ALL EDF RESBH 8 16\n\
    at 5 wake a\n= done\n\
    at 5 wake c\n= done\n\
    schedule\n0..4 idle\n5..9 cpu/root/a\n10..16 cpu/root/c\n17..17 idle\n\
    18..22 cpu/root/a\n\
    accounts\na 0..22 RESBH 5 10 ready 18 served 10\n\
    c 0..22 RESBH 8 16 ready 18 served 8\nidle 5\nend\n";

const FORM_1: &[u8] = b"refused line 1 Form\n";

const FORM_2: &[u8] = b"refused line 2 Form\n";

const CASES: [Case; 10] = [
    (&["run"], TWO, (Status::Done, TWO_REPORT)),
    (&["check"], TWO_REPORT, (Status::Done, b"kept\n")),
    (&["check"], STARVED, (Status::Broken, b"broken A4 18\n")),
    (&["check"], MISCOUNTED, (Status::Broken, b"broken A7 23\n")),
    (&["check"], b"", (Status::RefusedText, FORM_1)),
    (&["check"], b"hls 1\n", (Status::RefusedText, FORM_1)),
    (&["check"], b"hls-report 1", (Status::RefusedText, FORM_1)),
    (&["check"], b"hls-report 1\n", (Status::RefusedText, FORM_2)),
    (
        &["check"],
        b"hls-report 1\nhorizon 0\n",
        (Status::RefusedText, FORM_2),
    ),
    (
        &["check"],
        b"hls-report 1\nhorizon 1\ndepth 7\n",
        (Status::RefusedText, b"refused line 3 Form\n"),
    ),
];

#[test]
fn judges_reports(rt: HostRuntime) -> Result<(), Fail> {
    assert_eq!(rt; first_other(rt.alloc(), &CASES, SHORT)?, None);
    Ok(())
}

#[test]
fn refuses_a_report_that_does_not_end(rt: HostRuntime) -> Result<(), Fail> {
    let unended = &TWO_REPORT[..TWO_REPORT.len() - b"end\n".len()];
    let due = (Status::RefusedText, b"refused line 28 Form\n".as_slice());
    assert!(rt; ends_as(rt.alloc(), &["check"], unended, SHORT, due)?);
    Ok(())
}

/// The text is read in three calls, of which the last meets its end, and the answer is written in two.
const TOO_DEEP: &[u8] = b"hls-report 1\nhorizon 20\ndepth 9\n";

/// Which read fails, which write, and what comes of it.
type Fault = (u32, u32, Due);

const FAULTS: [Fault; 6] = [
    (0, NEVER, (Status::ReadFault, b"")),
    (1, NEVER, (Status::ReadFault, b"")),
    (2, NEVER, (Status::ReadFault, b"")),
    (NEVER, 0, (Status::WriteFault, b"")),
    (NEVER, 1, (Status::WriteFault, b"refused line 3 F")),
    (3, 2, (Status::RefusedText, b"refused line 3 Form\n")),
];

/// The first of these faults of which something else comes.
fn first_other_fault(alloc: Global) -> Result<Option<usize>, Fail> {
    for at in 0..FAULTS.len() {
        let (failing_read, failing_write, due) = FAULTS[at];
        let streams = Streams {
            read: 16,
            write: 16,
            room: 64,
            failing_read,
            failing_write,
        };
        if !ends_as(alloc, &["check"], TOO_DEEP, streams, due)? {
            return Ok(Some(at));
        }
    }
    Ok(None)
}

#[test]
fn checks_up_to_the_first_fault(rt: HostRuntime) -> Result<(), Fail> {
    assert_eq!(rt; first_other_fault(rt.alloc())?, None);
    Ok(())
}
