// The accounts and the idle ticks that a report ought to print.
ghost use Rattle.std.specs.Prelude.{◌≡◌, ◌+◌, ◌-◌, ◌^◌, ◌<◌, IfOk, is_none};
ghost use Rattle.hls_chron.specs.Ticks.{count};
ghost use Rattle.hls_report_text.specs.Content.{content_of};
ghost use Rattle.hls_legal.specs.Schedule.{path_at};
ghost use Rattle.hls_legal.specs.Accounts as told;

use crate::readiness::{count_ready, count_served};
use crate::schedule::is_idle;
use crate::stays::stays_of;
use hls_legal::Stay;
use hls_report_text::{Account, Report};
use std::alloc::{AllocError, Global};

/// The tick before which a stay ends.
fn end_of(report: &Report, stay: &Stay) -> u32
    ensures { result ≡ told.end_of (content_of report.now) stay.now }
{
    match stay.until {
        Some(until) => until,
        None => report.horizon,
    }
}

/// The account of a stay.
fn account_of(report: &Report, stay: &Stay) -> Account
    ensures { result ≡ told.account_of (content_of report.now) stay.now }
{
    let end = end_of(report, stay);
    let ticks = end.saturating_sub(stay.since);
    Account {
        name: stay.name,
        from: stay.since,
        to: end.saturating_sub(1),
        kept: stay.kept,
        ready: count_ready(report, &stay.name, stay.since, ticks),
        served: count_served(report, &stay.name, stay.since, ticks),
    }
}

/// The accounts that a report ought to print, by its commands and its runs alone.
///
/// # Errors
///
/// Where memory is wanting.
pub fn accounts_of(alloc: Global, report: &Report) -> Result<Vec<Account>, AllocError>
    ensures { IfOk result (λ accounts. accounts.items ≡ told.accounts_of (content_of report.now)) }
{
    let all = stays_of(alloc, report.answered.items())?;
    all.iter()
        .filter(|stay| stay.since < end_of(report, stay))
        .map(|stay| account_of(report, stay))
        .collect(alloc)
}

/// In how many ticks nobody is served, by the runs.
#[tactic(auto, using(hls_kinds::proofs::TickLaws::tick_laws))]
pub fn idle_of(report: &Report) -> u32
    ensures { result ≡ told.idle_of (content_of report.now) }
{
    let mut idle = 0;
    for tick in 0..report.horizon {
        if is_idle(report, tick) {
            idle += 1;
        }
    }
    idle
}
