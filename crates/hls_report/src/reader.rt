// Reading a report's text, line by line.
ghost use Rattle.std.specs.Prelude.{◌≡◌, ℕ, ◌^◌, ◌<◌, ◌≤◌, ◌++◌, ◌∷◌, [], codes, decimal, map};
ghost use Rattle.std.specs.Prelude.{OnOk, IfOk, IfErr, IfSome, Some};
ghost use Rattle.std.specs.List.{AllByRecursion};
ghost use Rattle.hls_chron.specs.Ranges.{IsWithin, IsVersion, most_ticks};
ghost use Rattle.hls_report_text.specs.ReportText.{account_text};
ghost use Rattle.hls_report_text.specs.WellFormed.{IsAccount};
ghost use Rattle.hls_report.specs.Inside.Rests.{CanCount, Passes, FailsAt, HeaderRest, HorizonRest, DepthRest};
ghost use Rattle.hls_report.specs.Inside.Rests.{CommandRest, AccountRest, EndRest};

use crate::ReportFault;
use crate::line_reading::account;
use crate::lines::Lines;
use crate::words::{count, digit};
use hls_report_text::Account;
use hls_text::after;
use std::alloc::{AllocError, Global};

/// The version that a line spells.
fn version_of(line: &[u8]) -> Option<u8>
    ensures found { IfSome result (λ v. IsVersion v × (line.now ≡ codes "hls-report " ++ decimal v)) }
    ensures exact { (v : ℕ) → IsVersion v → line.now ≡ codes "hls-report " ++ decimal v → result ≡ Some v }
{
    match digit(after(line, b"hls-report ")?, 3) {
        Some(v) if v >= 1 => Some(v),
        _ => None,
    }
}

/// Reads the first line, which tells the version of the language.
pub fn header(lines: &mut Lines<'_>) -> Result<u8, ReportFault>
    requires { CanCount lines.old }
    ensures ok { IfOk result (λ v. IsVersion v
        × Passes HeaderRest (HorizonRest v) ((codes "hls-report " ++ decimal v) ∷ []) lines.old lines.new) }
    ensures err { IfErr result (λ fault. FailsAt HeaderRest lines.old fault) }
{
    let Some(line) = lines.next() else {
        return Err(lines.fault());
    };
    match version_of(line) {
        Some(v) => Ok(v),
        None => Err(lines.fault()),
    }
}

/// How many ticks a report of the version has at most.
fn most_in(version: u8) -> u32
    ensures { result ≡ most_ticks version }
{
    if version == 1 { 100_000 } else { 1_000_000 }
}

/// The horizon that a line spells.
fn horizon_of(line: &[u8], version: u8) -> Option<u32>
    ensures found { IfSome result (λ n. IsWithin 1 (most_ticks version) n
        × (line.now ≡ codes "horizon " ++ decimal n)) }
    ensures exact { (n : ℕ) → IsWithin 1 (most_ticks version) n → line.now ≡ codes "horizon " ++ decimal n →
        result ≡ Some n }
{
    let most = most_in(version);
    match count(after(line, b"horizon ")?) {
        Some(n) if 1 <= n && n <= most => Some(n),
        _ => None,
    }
}

/// Reads the horizon.
pub fn horizon(lines: &mut Lines<'_>, version: u8) -> Result<u32, ReportFault>
    requires { CanCount lines.old }
    ensures ok { IfOk result (λ n. IsWithin 1 (most_ticks version) n
        × Passes (HorizonRest version) (DepthRest version n) ((codes "horizon " ++ decimal n) ∷ []) lines.old
        lines.new) }
    ensures err { IfErr result (λ fault. FailsAt (HorizonRest version) lines.old fault) }
{
    let Some(line) = lines.next() else {
        return Err(lines.fault());
    };
    match horizon_of(line, version) {
        Some(n) => Ok(n),
        None => Err(lines.fault()),
    }
}

/// The depth that a line spells.
fn depth_of(line: &[u8]) -> Option<u8>
    ensures found { IfSome result (λ n. (n ≤ 6) × (line.now ≡ codes "depth " ++ decimal n)) }
    ensures exact { (n : ℕ) → n ≤ 6 → line.now ≡ codes "depth " ++ decimal n → result ≡ Some n }
{
    digit(after(line, b"depth ")?, 7)
}

/// Reads the depth.
pub fn depth(lines: &mut Lines<'_>, version: u8, horizon: u32) -> Result<u8, ReportFault>
    requires { CanCount lines.old }
    ensures ok { IfOk result (λ n. (n ≤ 6)
        × Passes (DepthRest version horizon) (CommandRest version horizon 0 65536)
        ((codes "depth " ++ decimal n) ∷ []) lines.old lines.new) }
    ensures err { IfErr result (λ fault. FailsAt (DepthRest version horizon) lines.old fault) }
{
    let Some(line) = lines.next() else {
        return Err(lines.fault());
    };
    match depth_of(line) {
        Some(n) => Ok(n),
        None => Err(lines.fault()),
    }
}
