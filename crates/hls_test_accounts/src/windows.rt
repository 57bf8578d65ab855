// The windows of a stay.
ghost use Rattle.std.specs.Prelude.{◌≤◌};
ghost use Rattle.hls_report_text.specs.Content.{content_of};
ghost use Rattle.hls_legal.specs.Accounts.{end_of, IsLongestWindow};

use crate::readiness::is_ready;
use hls_legal::Stay;
use hls_report_text::Report;

/// The tick from which on, up to the one before `until`, the thread of a stay is ready in all ticks
/// of the stay: where the longest window that ends there begins.
pub fn window_start(report: &Report, stay: &Stay, until: u32) -> u32
    requires begun { stay.now.since ≤ until }
    requires within { until ≤ end_of (content_of report.now) stay.now }
    ensures { IsLongestWindow (content_of report.now) stay.now result until }
{
    let mut from = stay.since;
    for tick in stay.since..until {
        if !is_ready(report, &stay.name, tick) {
            from = tick + 1;
        }
    }
    from
}
