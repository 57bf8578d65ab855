// The accounts of stays.
ghost use Rattle.std.specs.Prelude.{◌≡◌, ◌≤◌};
ghost use Rattle.hls_report_text.specs.Content.{content_of};
ghost use Rattle.hls_report_text.specs.WellFormed.{IsWellFormed};
ghost use Rattle.hls_legal.specs.Accounts as told;
ghost use Rattle.hls_audit_threads.specs.Inside.Ticks.{TellsReady, TellsServed};
ghost use Rattle.hls_audit_threads.specs.Inside.StayFindings.{account_if};

use crate::stays::end_of;
use hls_audit_spans::Spans;
use hls_legal::Stay;
use hls_report_text::{Account, Report};

/// The account of a stay, if it has a tick.
pub(crate) fn account_of(
    report: &Report,
    stay: &Stay,
    ready: &Spans,
    served: &Spans,
) -> Option<Account>
    requires formed { IsWellFormed report.now }
    requires ends { told.end_of (content_of report.now) stay.now ≤ report.now.horizon }
    requires ready { TellsReady (content_of report.now) stay.now.name ready.now.spans.items }
    requires served { TellsServed (content_of report.now) stay.now.name served.now.spans.items }
    ensures { result ≡ account_if (content_of report.now) stay.now }
{
    let end = end_of(report, stay);
    if end <= stay.since {
        return None;
    }
    let ticks = end.saturating_sub(stay.since);
    Some(Account {
        name: stay.name,
        from: stay.since,
        to: end.saturating_sub(1),
        kept: stay.kept,
        ready: ready.count(stay.since, ticks),
        served: served.count(stay.since, ticks),
    })
}
