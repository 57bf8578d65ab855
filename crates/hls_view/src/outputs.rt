// What is to be written at words that ask for a view.
ghost use Rattle.std.specs.Prelude.{◌≡◌, Some, IfOk, IfErr, OnOk};
ghost use Rattle.hls_top.specs.Exchange.{drawn, report_limit};
ghost use Rattle.hls_top.specs.Outputs.{IsOfText};
ghost use Rattle.hls_top.specs.Ends.{Lacks};
ghost use Rattle.hls_top.specs.Says.{IsRead};
ghost use Rattle.hls_view.specs.Outputs.{IsSaid};

use crate::showing::view_of_text;
use hls_io::{ReadError, Source, Status};
use hls_top::text_from;
use hls_view_words::View;
use std::alloc::Global;

/// The most bytes that are taken for the text of a report.
const REPORT_LIMIT: usize = 268_435_456;

/// What is to be written, and the status that goes with it.
#[derive(Drop)]
pub struct Output {
    pub status: Status,
    pub bytes: Vec<u8>,
}

/// Reads the text of a report, and makes a view of it.
pub fn output_of<S: Source>(alloc: Global, view: &View, source: &mut S) -> Result<Output, ReadError>
    ensures is { IfOk result (λ output. IsOfText report_limit (drawn S.left S.faults source.old source.new)
        (λ bytes. IsSaid view.now bytes output.status output.bytes.items)) }
    ensures quiet { OnOk result (S.faults source.new ≡ S.faults source.old) }
    ensures lacks { IfErr result (λ error. Lacks error (Some report_limit)
        (drawn S.left S.faults source.old source.new)) }
    ensures orderly { IsRead (Some report_limit) (drawn S.left S.faults source.old source.new) }
{
    let text = text_from(alloc, source, REPORT_LIMIT)?;
    Ok(view_of_text(alloc, view, text)?)
}
