// Who is there before a command.
ghost use Rattle.std.specs.Prelude.{◌≡◌, ◌≤◌, IfOk, length};
ghost use Rattle.hls_report_text.specs.Content.{content_of};
ghost use Rattle.hls_view_tale.specs.Standings.{standing};
ghost use Rattle.hls_view_tale.specs.Inside.Told.{IsTold};

use crate::Standing;
use crate::tale::Tale;
use hls_report_text::{Answered, Report};
use std::alloc::{AllocError, Global};

/// What the first so many commands leave.
fn tale_before(alloc: Global, answered: &[Answered], came: usize) -> Result<Tale, AllocError>
    requires { came ≤ length answered.now }
    ensures { IfOk result (λ tale. IsTold tale answered.now came) }
{
    let mut tale = Tale::new(alloc);
    for place in 0..came {
        tale.follow(alloc, answered, place)?;
    }
    Ok(tale)
}

/// Who is there once the first so many commands of a report were carried out, by the beginning of their stays.
///
/// # Errors
/// Returns `AllocError` where there is no memory for what is kept beside the report.
pub fn standing_before(
    alloc: Global,
    report: &Report,
    came: usize,
) -> Result<Vec<Standing>, AllocError>
    requires { came ≤ length (content_of report.now).answered }
    ensures { IfOk result (λ all. all.items ≡ standing (content_of report.now).answered came) }
{
    let tale = tale_before(alloc, report.answered.items(), came)?;
    Ok(tale.standing)
}
