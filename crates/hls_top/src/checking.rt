// The verdict on the text of a report.
ghost use Rattle.std.specs.Prelude.{◌≡◌, ◌≤◌, ◌∷◌, ◌++◌, [], IfOk, length};
ghost use Rattle.hls_report_text.specs.WellFormed.{IsReportText};
ghost use Rattle.hls_top.specs.Exchange.{report_limit};
ghost use Rattle.hls_top.specs.Outputs.{IsOfCheck, output_text};
ghost use Rattle.hls_top.specs.Summaries.{status_of, verdict};

use crate::outputs::{Output, OutputText};
use crate::refusing::refusal_line;
use crate::verdicts::put_verdict;
use hls_audit::{Outcome, audit};
use hls_io::Status;
use hls_report::{Report, ReportFault, read_report};
use hls_text::put;
use std::alloc::{AllocError, Global};

fn status_of(audit: Outcome) -> Status
    ensures { result ≡ status_of audit }
{
    match audit {
        Outcome::Kept => Status::Done,
        Outcome::Broken { .. } => Status::Broken,
    }
}

/// The line that tells what an audit comes to.
///
/// # Errors
/// Returns `AllocError` for want of memory.
pub fn verdict_line(alloc: Global, audit: Outcome) -> Result<Vec<u8>, AllocError>
    ensures { IfOk result (λ bytes. bytes.items ≡ verdict audit ++ 10 ∷ []) }
{
    let mut bytes = Vec::new(alloc);
    put_verdict(&mut bytes, audit)?;
    put(&mut bytes, b"\n")?;
    Ok(bytes)
}

/// The verdict on a report that was read from a text. The text goes first, to save memory.
fn verdict_on(alloc: Global, report: &Report, text: Vec<u8>) -> Result<Output, AllocError>
    requires read { IsReportText text.items report.now }
    ensures { IfOk result (λ output. IsOfCheck text.items output.status (output_text output.text)) }
{
    drop(text);
    let audit = audit(alloc, report)?;
    Ok(Output {
        status: status_of(audit),
        text: OutputText::Bytes(verdict_line(alloc, audit)?),
    })
}

/// The verdict on the report of a text, or the line that refuses the text.
///
/// # Errors
/// Returns `AllocError` for want of memory.
pub fn verdict_on_text(alloc: Global, text: Vec<u8>) -> Result<Output, AllocError>
    requires within { length text.items ≤ report_limit }
    ensures { IfOk result (λ output. IsOfCheck text.items output.status (output_text output.text)) }
{
    match read_report(alloc, &text) {
        Ok(report) => verdict_on(alloc, &report, text),
        Err(ReportFault::At { line }) => Ok(Output {
            status: Status::RefusedText,
            text: OutputText::Bytes(refusal_line(alloc, line, b"Form")?),
        }),
        Err(ReportFault::Memory(error)) => Err(error),
    }
}
