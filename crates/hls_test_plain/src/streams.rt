// Sources and sinks: what is read to an end, a limit or a fault, and what is gathered and passed on.
use hls_io::{
    Failed, MemSink, MemSource, ReadError, Sink, Source, StdSink, StdSource, gather, read_all,
};
use std::alloc::Global;
use std::test::Fail;

/// How many bytes are read of six, four at a time at most, where this call fails.
fn read_of_six(alloc: Global, most: usize, fail: u32) -> Result<Result<usize, ReadError>, Fail> {
    let fail = [fail].to_vec(alloc)?;
    let mut source = MemSource::new(b"abcdef".to_vec(alloc)?, 4, fail);
    Ok(read_all(alloc, &mut source, most).map(|bytes| bytes.len()))
}

#[test]
fn reads_to_the_end_or_to_the_limit(rt: HostRuntime) -> Result<(), Fail> {
    let alloc = rt.alloc();
    assert_eq!(rt; read_of_six(alloc, 6, 9)?, Ok(6));
    assert_eq!(rt; read_of_six(alloc, 5, 9)?, Err(ReadError::TooLong));
    assert_eq!(rt; read_of_six(alloc, 7, 2)?, Err(ReadError::Fault));
    Ok(())
}

#[test]
fn gathers_in_a_room_and_writes_what_does_not_fit(rt: HostRuntime) -> Result<(), Fail> {
    let alloc = rt.alloc();
    let mut sink = MemSink::new(alloc, 99, 99, Vec::new(alloc))?;
    let mut room = Vec::with_capacity(alloc, 4)?;
    assert_eq!(rt; gather(&mut sink, &mut room, b"ab"), Ok(()));
    assert_eq!(rt; gather(&mut sink, &mut room, b"cde"), Ok(()));
    assert_eq!(rt; sink.bytes(), b"ab".as_slice());
    assert_eq!(rt; gather(&mut sink, &mut room, b"fghijk"), Ok(()));
    assert_eq!(rt; sink.bytes(), b"abcdefghijk".as_slice());
    Ok(())
}

#[test]
fn passes_on_what_a_reader_gives_and_a_writer_takes(rt: HostRuntime) -> Result<(), Fail> {
    let mut room = *b"---";
    let mut source = StdSource::new(b"abcd".as_slice());
    assert_eq!(rt; source.read(&mut room), Ok(3));
    assert_eq!(rt; source.read(&mut room), Ok(1));
    assert_eq!(rt; room, *b"dbc");
    let mut sink = StdSink::new(&mut room[..]);
    assert_eq!(rt; sink.write(b"abcd"), Ok(3));
    assert_eq!(rt; sink.write(b"d"), Err(Failed));
    Ok(())
}
