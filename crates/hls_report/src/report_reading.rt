// Reading a whole report.
ghost use Rattle.hls_chron.specs.Ranges.{longest_horizon};
ghost use Rattle.std.specs.Prelude.{◌≡◌, ◌^◌, ◌-◌, ◌<◌, ◌≤◌, ◌++◌, map, length, IfOk, IfErr};
ghost use Rattle.std.specs.List.{AllByRecursion};
ghost use Rattle.hls_report_text.specs.ReportText.{account_text, end_lines, ended};
ghost use Rattle.hls_report_text.specs.WellFormed.{IsAccount, IsReportText};
ghost use Rattle.hls_report.specs.Inside.Rests.{CanCount, Passes, FailsAt, HeaderRest, AccountRest};
ghost use Rattle.hls_report.specs.Inside.HeadLines.{IsHeadRead};
ghost use Rattle.hls_report.specs.Reports.{HasNamesByUse, ReadsAs, IsBadAt};

use crate::ReportFault;
use crate::account_reading::{accounts, end};
use crate::command_reading::commands;
use crate::lines::Lines;
use crate::reader::{depth, header, horizon};
use crate::run_reading::runs;
use hls_chron::List;
use hls_report_text::{Account, Report};
use std::alloc::Global;

/// What stands before the commands.
#[derive(Debug, Drop)]
struct Heading {
    version: u8,
    horizon: u32,
    depth: u8,
}

/// Reads the lines before the commands.
fn head(lines: &mut Lines<'_>) -> Result<Heading, ReportFault>
    requires { CanCount lines.old }
    ensures ok { IfOk result (IsHeadRead lines.old lines.new) }
    ensures err { IfErr result (λ fault. FailsAt HeaderRest lines.old fault) }
{
    let version = header(lines)?;
    let horizon = horizon(lines, version)?;
    let depth = depth(lines, version, horizon)?;
    Ok(Heading {
        version,
        horizon,
        depth,
    })
}

/// Reads the accounts, the idle ticks and the end.
fn tail(
    alloc: Global,
    lines: &mut Lines<'_>,
    horizon: u32,
) -> Result<(Vec<Account>, u32), ReportFault>
    requires room { CanCount lines.old }
    requires few { horizon ≤ longest_horizon }
    ensures ok { IfOk result (λ p. AllByRecursion (IsAccount horizon) p.0.items × (p.1 < 2 ^ 32)
        × (lines.old.rest.now ≡ ended (map account_text p.0.items ++ end_lines p.1))) }
    ensures err { IfErr result (λ fault. FailsAt (AccountRest horizon) lines.old fault) }
{
    let (accounts, idle) = accounts(alloc, lines, horizon)?;
    end(lines)?;
    Ok((accounts, idle))
}

/// Reads all lines of a report.
fn report(alloc: Global, lines: &mut Lines<'_>) -> Result<Report, ReportFault>
    requires { CanCount lines.old }
    ensures ok { IfOk result (λ r. IsReportText lines.old.rest.now r) }
    ensures names { IfOk result HasNamesByUse }
    ensures err { IfErr result (λ fault. FailsAt HeaderRest lines.old fault) }
{
    let head = head(lines)?;
    let answered = commands(alloc, lines, head.version, head.horizon)?;
    let schedule = runs(alloc, lines, head.horizon)?;
    let (accounts, idle) = tail(alloc, lines, head.horizon)?;
    Ok(Report {
        version: head.version,
        horizon: head.horizon,
        depth: head.depth,
        answered: List::of(answered),
        names: schedule.names,
        runs: schedule.runs,
        accounts: List::of(accounts),
        idle,
    })
}

/// The report of a text of at most 4,294,967,294 bytes.
///
/// # Errors
/// Returns the first line that cannot stand, or `Memory` for want of memory.
pub fn read_report(alloc: Global, text: &[u8]) -> Result<Report, ReportFault>
    requires { length text.now < 2 ^ 32 - 1 }
    ensures found { IfOk result (λ report. IsReportText text.now report) }
    ensures names { IfOk result HasNamesByUse }
    ensures exact { (report : Report) → IsReportText text.now report → ReadsAs report result }
    ensures bad { IfErr result (λ fault. IsBadAt text.now fault) }
{
    let mut lines = Lines {
        rest: text,
        count: 0,
    };
    report(alloc, &mut lines)
}
