// Reading the accounts, and the end.
ghost use Rattle.hls_chron.specs.Ranges.{longest_horizon};
ghost use Rattle.std.specs.Prelude.{◌≡◌, ℕ, ◌^◌, ◌<◌, ◌≤◌, ◌++◌, ◌∷◌, [], codes, decimal, map};
ghost use Rattle.std.specs.Prelude.{OnOk, IfOk, IfErr, IfSome, Some};
ghost use Rattle.std.specs.List.{AllByRecursion};
ghost use Rattle.hls_report_text.specs.ReportText.{account_text, ended};
ghost use Rattle.hls_report_text.specs.WellFormed.{IsAccount};
ghost use Rattle.hls_report.specs.Inside.Rests.{CanCount, Passes, FailsAt, AccountRest, EndRest, NoRest};
ghost use Rattle.hls_report.specs.Inside.AccountLines.{AccountPasses};

use crate::ReportFault;
use crate::line_reading::account;
use crate::lines::Lines;
use crate::words::count;
use hls_report_text::Account;
use hls_text::after;
use std::alloc::{AllocError, Global};

/// A line of the accounts.
#[derive(Debug, Drop)]
pub enum AccountLine {
    Stay(Account),
    /// How many ticks nobody was served, behind the last account.
    Idle(u32),
}

/// The idle ticks that a line spells.
fn idle_of(line: &[u8]) -> Option<u32>
    ensures found { IfSome result (λ n. (n < 2 ^ 32) × (line.now ≡ codes "idle " ++ decimal n)) }
    ensures exact { (n : ℕ) → n < 2 ^ 32 → line.now ≡ codes "idle " ++ decimal n → result ≡ Some n }
{
    count(after(line, b"idle ")?)
}

fn next_account(lines: &mut Lines<'_>, horizon: u32) -> Result<AccountLine, ReportFault>
    requires room { CanCount lines.old }
    requires few { horizon ≤ longest_horizon }
    ensures ok { IfOk result (λ line. AccountPasses horizon line lines.old lines.new) }
    ensures err { IfErr result (λ fault. FailsAt (AccountRest horizon) lines.old fault) }
{
    let Some(line) = lines.next() else {
        return Err(lines.fault());
    };
    if let Some(account) = account(line, horizon) {
        return Ok(AccountLine::Stay(account));
    }
    match idle_of(line) {
        Some(ticks) => Ok(AccountLine::Idle(ticks)),
        None => Err(lines.fault()),
    }
}

fn keep_account(accounts: &mut Vec<Account>, account: Account) -> Result<(), AllocError>
    ensures { OnOk result (accounts.new.items ≡ accounts.old.items ++ account ∷ []) }
{
    accounts.push(account)?;
    Ok(())
}

/// Reads the accounts and the idle ticks.
pub fn accounts(
    alloc: Global,
    lines: &mut Lines<'_>,
    horizon: u32,
) -> Result<(Vec<Account>, u32), ReportFault>
    requires room { CanCount lines.old }
    requires few { horizon ≤ longest_horizon }
    ensures ok { IfOk result (λ p. AllByRecursion (IsAccount horizon) p.0.items × (p.1 < 2 ^ 32)
        × Passes (AccountRest horizon) EndRest
        (map account_text p.0.items ++ (codes "idle " ++ decimal p.1) ∷ []) lines.old lines.new) }
    ensures err { IfErr result (λ fault. FailsAt (AccountRest horizon) lines.old fault) }
{
    let mut accounts = Vec::new(alloc);
    loop {
        match next_account(lines, horizon)? {
            AccountLine::Stay(account) => keep_account(&mut accounts, account)?,
            AccountLine::Idle(ticks) => return Ok((accounts, ticks)),
        }
    }
}

fn end_line(lines: &mut Lines<'_>) -> Result<(), ReportFault>
    requires { CanCount lines.old }
    ensures ok { OnOk result (Passes EndRest NoRest (codes "end" ∷ []) lines.old lines.new) }
    ensures err { IfErr result (λ fault. FailsAt EndRest lines.old fault) }
{
    let Some(line) = lines.next() else {
        return Err(lines.fault());
    };
    if line == b"end".as_slice() {
        Ok(())
    } else {
        Err(lines.fault())
    }
}

/// Reads the last line, behind which nothing stands.
pub fn end(lines: &mut Lines<'_>) -> Result<(), ReportFault>
    requires { CanCount lines.old }
    ensures ok { OnOk result (lines.old.rest.now ≡ ended (codes "end" ∷ [])) }
    ensures err { IfErr result (λ fault. FailsAt EndRest lines.old fault) }
{
    end_line(lines)?;
    if lines.rest.is_empty() {
        Ok(())
    } else {
        lines.next();
        Err(lines.fault())
    }
}
