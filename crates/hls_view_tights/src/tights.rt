// The least spare of each row.
ghost use Rattle.std.specs.Prelude.{IfOk};
ghost use Rattle.hls_report_text.specs.Content.{content_of};
ghost use Rattle.hls_report_text.specs.WellFormed.{IsWellFormed};
ghost use Rattle.hls_view_tights.specs.Tights.{AreTights};

use crate::least::tightest;
use crate::sightings::sightings_of;
use hls_chron::List;
use hls_report_text::Report;
use hls_view_margins::{Distance, Part, margins};
use hls_view_scale::Scale;
use hls_view_tale::Label;
use std::alloc::{AllocError, Global};

/// The least spare of stays.
#[derive(Clone, Copy, Debug, PartialEq, Eq)]
pub struct Tight {
    pub surplus: Distance,
    /// The first part of its stay that has it.
    pub part: Part,
}

/// The least spare of each row, and where it is, in the order of the rows: of the stays that have the row and a tick in
/// the span, the first with the least; `None` where there is none.
///
/// # Errors
/// Returns `AllocError` where there is no memory for what is kept beside the report.
pub fn tights_of(
    alloc: Global,
    report: &Report,
    scale: &Scale,
    rows: &[List<Label>],
) -> Result<Vec<Option<Tight>>, AllocError>
    requires { IsWellFormed report.now }
    ensures { IfOk result (λ all. AreTights (content_of report.now) scale.now rows.now all.items) }
{
    let margins = margins(alloc, report)?;
    let sightings = sightings_of(alloc, report, scale, &margins)?;
    let mut all = Vec::new(alloc);
    for row in rows {
        all.push(tightest(&sightings, row.items()))?;
    }
    Ok(all)
}
