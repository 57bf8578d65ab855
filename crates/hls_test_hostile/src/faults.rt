// A run whose reads or writes fail, each of them in turn.
use crate::running::{SHORT, Streams, ends_as};
use hls_io::Status;
use std::alloc::Global;
use std::test::Fail;

/// A fixed priority scheduler, with a name and a priority that are taken.
const SCENARIO: &[u8] = b"hls 1\nhorizon 4\n\
    at 0 load root fp on cpu as ALL\n\
    at 0 thread a on root prio 0 as ALL\n\
    at 0 thread b on root prio 3 as NULL\n\
    at 0 thread a on root prio 5 as NULL\n\
    at 0 thread c on root prio 3 as NULL\n\
    at 0 wake b\n\
    at 1 wake a\n\
    at 3 block a\n\
    at 3 wake z\n";

const REPORT: &[u8] = b"hls-report 1\nhorizon 4\ndepth 3\n\
    at 0 load root fp on cpu as ALL\n= done\nby root 0 ALL CPU ALL\n\
    at 0 thread a on root prio 0 as ALL\n= done\nby a 0 ALL FP ALL\n\
    at 0 thread b on root prio 3 as NULL\n= done\nby b 0 ALL FP NULL\n\
    at 0 thread a on root prio 5 as NULL\n= refused 10 NameTaken a\n\
    at 0 thread c on root prio 3 as NULL\n= refused 17 PriorityTaken 3\n\
    at 0 wake b\n= done\n\
    at 1 wake a\n= done\n\
    at 3 block a\n= done\n\
    at 3 wake z\n= refused 11 NoSuchName z\n\
    schedule\n0..0 cpu/root/b\n1..2 cpu/root/a\n3..3 cpu/root/b\n\
    accounts\na 0..3 ALL ready 2 served 2\nb 0..3 NULL ready 4 served 2\nidle 0\nend\n";

/// Short reads and writes, and room for the report and more.
const STREAMS: Streams = Streams { read: 16, ..SHORT };

/// How many reads it takes to have all of the scenario, and to find its end.
const READS: u32 = 17;

/// How many writes it takes to be rid of the report.
const WRITES: u32 = 36;

/// Rooms that are too small for the report, and the one that it fills.
const ROOMS: [usize; 5] = [0, 1, 100, REPORT.len() - 1, REPORT.len()];

/// The first failing read of which something else comes than no output. One more read is never made.
fn first_other_read(alloc: Global) -> Result<Option<u32>, Fail> {
    for call in 0..READS + 1 {
        let streams = Streams {
            failing_read: call,
            ..STREAMS
        };
        let due = if call < READS {
            (Status::ReadFault, b"".as_slice())
        } else {
            (Status::Done, REPORT)
        };
        if !ends_as(alloc, &["run"], SCENARIO, streams, due)? {
            return Ok(Some(call));
        }
    }
    Ok(None)
}

/// Whether so many bytes of the report are written through these streams, and a fault is told if there are more.
fn writes_up_to(alloc: Global, length: usize, streams: Streams) -> Result<bool, Fail> {
    let length = length.min(REPORT.len());
    let status = if streams.failing_write < WRITES || streams.room < REPORT.len() {
        Status::WriteFault
    } else {
        Status::Done
    };
    let due = (status, &REPORT[..length]);
    Ok(ends_as(alloc, &["run"], SCENARIO, streams, due)?)
}

/// The first failing write before which something else is written. One more write is never made.
fn first_other_write(alloc: Global) -> Result<Option<u32>, Fail> {
    for call in 0..WRITES + 1 {
        let streams = Streams {
            failing_write: call,
            ..STREAMS
        };
        if !writes_up_to(alloc, 16 * call as usize, streams)? {
            return Ok(Some(call));
        }
    }
    Ok(None)
}

/// The first room that is filled with something else.
fn first_other_room(alloc: Global) -> Result<Option<usize>, Fail> {
    for at in 0..ROOMS.len() {
        let streams = Streams {
            room: ROOMS[at],
            ..STREAMS
        };
        if !writes_up_to(alloc, ROOMS[at], streams)? {
            return Ok(Some(at));
        }
    }
    Ok(None)
}

#[test]
fn writes_nothing_where_a_read_fails(rt: HostRuntime) -> Result<(), Fail> {
    assert_eq!(rt; first_other_read(rt.alloc())?, None);
    Ok(())
}

#[test]
fn writes_up_to_the_write_that_fails(rt: HostRuntime) -> Result<(), Fail> {
    assert_eq!(rt; first_other_write(rt.alloc())?, None);
    Ok(())
}

#[test]
fn writes_up_to_a_full_sink(rt: HostRuntime) -> Result<(), Fail> {
    assert_eq!(rt; first_other_room(rt.alloc())?, None);
    Ok(())
}
