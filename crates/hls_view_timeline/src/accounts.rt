// The accounts that a report ought to give of its stays.
ghost use Rattle.std.specs.Prelude.{◌≡◌, IfOk, map};
ghost use Rattle.std.specs.List.{AllByRecursion};
ghost use Rattle.hls_report_text.specs.Content.{content_of};
ghost use Rattle.hls_report_text.specs.WellFormed.{IsWellFormed};
ghost use Rattle.hls_legal.specs.Accounts.{accounts_of};
ghost use Rattle.hls_view_timeline.specs.Inside.Accounts.{account_by, IsWithin};

use hls_report_text::{Account, Report};
use hls_view_margins::{Margin, margins};
use std::alloc::{AllocError, Global};

fn account_by(margin: &Margin) -> Account
    ensures { result ≡ account_by margin.now }
{
    Account {
        name: margin.name,
        from: margin.from,
        to: margin.to,
        kept: margin.kept,
        ready: margin.ready,
        served: margin.served,
    }
}

fn accounts_by(alloc: Global, margins: &[Margin]) -> Result<Vec<Account>, AllocError>
    ensures { IfOk result (λ accounts. accounts.items ≡ map account_by margins.now) }
{
    let mut accounts = Vec::new(alloc);
    for margin in margins {
        accounts.push(account_by(margin))?;
    }
    Ok(accounts)
}

/// The account of each stay that has a tick.
///
/// # Errors
/// Returns `AllocError` for want of memory.
pub(crate) fn accounts(alloc: Global, report: &Report) -> Result<Vec<Account>, AllocError>
    requires { IsWellFormed report.now }
    ensures are { IfOk result (λ all. all.items ≡ accounts_of (content_of report.now)) }
    ensures within { IfOk result (λ all. AllByRecursion (IsWithin (content_of report.now)) all.items) }
{
    let margins = margins(alloc, report)?;
    accounts_by(alloc, &margins)
}
