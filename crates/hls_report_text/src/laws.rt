//! What holds of the texts of reports: each function's contract is a law, and its body does nothing.

ghost use Rattle.std.specs.Prelude.{◌≡◌};
ghost use Rattle.hls_report_text.specs.Content.{Content, content_of};
ghost use Rattle.hls_report_text.specs.WellFormed.{IsContent, IsWellFormed};

use crate::Report;

/// Every content has a report, with the names of its paths in the order of their first use.
pub fn every_content_has_a_report()
    ensures { (c : Content) → IsContent c → (r : Report) × IsWellFormed r × (content_of r ≡ c) }
{}
