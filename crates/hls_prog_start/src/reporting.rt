// What the program writes about a scenario in memory.
ghost use Rattle.std.specs.Prelude.{string_bytes, IfOk, IfSome};
ghost use Rattle.hls_top.specs.Outputs.{IsReportOf};
ghost use Rattle.hls_prog_start.specs.FullKit.{full_kit};

use crate::starting::start;
use hls_io::{MemSink, MemSource, Status};
use std::alloc::{AllocError, Global};

/// The longest report that a run may write.
const ROOM: usize = 1_000_000;

/// How many bytes a read gives, and a write takes.
const PIECE: usize = 4096;

/// The report that the program writes about a scenario; `None` where it ends otherwise.
///
/// # Errors
///
/// Want of memory.
pub fn report_on(alloc: Global, scenario: String) -> Result<Option<Vec<u8>>, AllocError>
    ensures { IfOk result (λ written. IfSome written
        (λ report. IsReportOf 3 full_kit (string_bytes scenario) report.items)) }
{
    let mut words = Vec::new(alloc);
    words.push("run".to_string(alloc)?)?;
    let mut source = MemSource::new(scenario.into_bytes(), PIECE, Vec::new(alloc));
    let mut sink = MemSink::new(alloc, ROOM, PIECE, Vec::new(alloc))?;
    match start(alloc, &words, &mut source, &mut sink) {
        Status::Done => Ok(Some(sink.bytes().to_vec(alloc)?)),
        _ => Ok(None),
    }
}
