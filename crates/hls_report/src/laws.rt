//! What holds of the texts of reports: each function's contract is a law, and its body does nothing.

ghost use Rattle.std.specs.Prelude.{◌≡◌};
ghost use Rattle.hls_report_text.specs.Content.{content_of};
ghost use Rattle.hls_report_text.specs.ReportText.{report_text};
ghost use Rattle.hls_report_text.specs.WellFormed.{IsWellFormed};

use crate::Report;

/// One text is of one content: two reports with one text differ in their lists of names alone.
pub fn text_is_of_one_content()
    ensures { (r s : Report) → IsWellFormed r → IsWellFormed s → report_text r ≡ report_text s →
        content_of r ≡ content_of s }
{}
