// The audit.
ghost use Rattle.std.specs.Prelude.{◌≡◌, IfOk};
ghost use Rattle.hls_report_text.specs.Content.{content_of};
ghost use Rattle.hls_report_text.specs.WellFormed.{IsWellFormed};
ghost use Rattle.hls_audit.specs.Audits.{IsAudit, IsTale};
ghost use Rattle.hls_audit.specs.Inside.Failing as least;

use crate::commands::{first_misplaced, first_underived};
use crate::counts::first_miscounted;
use crate::leading::first_astray;
use hls_audit_threads::Findings;
use hls_report_text::Report;
use std::alloc::{AllocError, Global};

/// What the audit of a report comes to.
#[derive(Clone, Copy, Debug, PartialEq, Eq)]
pub enum Outcome {
    /// No clause fails at any tick.
    Kept,
    /// The least tick at which a clause fails, and the least number, 1 to 7, of those that fail at it.
    Broken { clause: u8, tick: u32 },
}

/// The sooner of a failure and the first one of a later clause.
fn sooner(found: Outcome, clause: u8, first: Option<u32>) -> Outcome
    ensures { result ≡ least.sooner found clause first }
{
    match (found, first) {
        (_, None) => found,
        (Outcome::Kept, Some(tick)) => Outcome::Broken { clause, tick },
        (Outcome::Broken { tick: earlier, .. }, Some(tick)) => {
            if tick < earlier {
                Outcome::Broken { clause, tick }
            } else {
                found
            }
        }
    }
}

/// The tick of a failure, or else the horizon: a later clause has to be tested below it alone.
fn bound(found: Outcome, horizon: u32) -> u32
    ensures { result ≡ least.bound found horizon }
{
    match found {
        Outcome::Kept => horizon,
        Outcome::Broken { tick, .. } => tick,
    }
}

/// Audits a report by its first two clauses alone: where they fail at no tick, its commands and its paths can be
/// followed.
///
/// # Errors
/// Returns `AllocError` where there is no memory for what is kept beside the report.
pub fn audit_tale(alloc: Global, report: &Report) -> Result<Outcome, AllocError>
    requires { IsWellFormed report.now }
    ensures { IfOk result (IsTale (content_of report.now)) }
{
    let misplaced = sooner(Outcome::Kept, 1, first_misplaced(alloc, report)?);
    Ok(sooner(misplaced, 2, first_astray(alloc, report)?))
}

/// Audits a report by what it says alone.
///
/// # Errors
/// Returns `AllocError` where there is no memory for what is kept beside the report.
pub fn audit(alloc: Global, report: &Report) -> Result<Outcome, AllocError>
    requires { IsWellFormed report.now }
    ensures { IfOk result (IsAudit (content_of report.now)) }
{
    let astray = audit_tale(alloc, report)?;
    let found = Findings::of(alloc, report)?;
    let unready = sooner(astray, 3, found.unready);
    let starved = sooner(unready, 4, found.starved);
    let over_cap = sooner(starved, 5, found.over_cap);
    let underived = sooner(
        over_cap,
        6,
        first_underived(alloc, report, bound(over_cap, report.horizon))?,
    );
    Ok(sooner(underived, 7, first_miscounted(report, found.is_counted)))
}
