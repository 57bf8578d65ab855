// The accounts and the idle ticks at the end.
ghost use Rattle.std.specs.Prelude.{◌≡◌, Decides};
ghost use Rattle.hls_report_text.specs.Content.{content_of};
ghost use Rattle.hls_report_text.specs.WellFormed.{IsWellFormed};
ghost use Rattle.hls_legal.specs.Accounts as told;
ghost use Rattle.hls_audit_clauses.specs.Clauses.{IsMiscounted};
ghost use Rattle.hls_audit_watch.specs.First.{FirstAt};

use hls_report_text::Report;

/// In how many ticks nobody is served.
fn idle_of(report: &Report) -> u32
    requires { IsWellFormed report.now }
    ensures { result ≡ told.idle_of (content_of report.now) }
{
    let mut idle = 0;
    for run in report.runs.items() {
        if run.path.is_none() {
            idle += run.to + 1 - run.from;
        }
    }
    idle
}

/// Whether the seventh clause fails at the horizon, by whether the accounts are those of all stays that have a tick.
fn is_miscounted(report: &Report, is_counted: bool) -> bool
    requires formed { IsWellFormed report.now }
    requires counted { Decides is_counted (report.now.accounts ≡ told.accounts_of (content_of report.now)) }
    ensures { Decides result (IsMiscounted (content_of report.now) report.now.horizon) }
{
    !is_counted || report.idle != idle_of(report)
}

/// The first tick at which the seventh clause fails, by whether the accounts are those of all stays that have a tick.
pub(crate) fn first_miscounted(report: &Report, is_counted: bool) -> Option<u32>
    requires formed { IsWellFormed report.now }
    requires counted { Decides is_counted (report.now.accounts ≡ told.accounts_of (content_of report.now)) }
    ensures { FirstAt (IsMiscounted (content_of report.now)) result }
{
    if is_miscounted(report, is_counted) {
        return Some(report.horizon);
    }
    None
}
