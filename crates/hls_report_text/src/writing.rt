// The text of a report, a line at a time.
ghost use Rattle.std.specs.Prelude.{◌≡◌, ◌≤◌, ◌++◌, ◌∷◌, [], OnOk, IfOk, codes, decimal, flat_map, get_or};
ghost use Rattle.std.specs.List.{AllByRecursion};
ghost use Rattle.hls_guarantee.specs.Limits.{IsValid};
ghost use Rattle.hls_scenario.specs.declared.scenario.Command.{Command as CommandSeen};
ghost use Rattle.hls_scenario.specs.Grammar.{IsCommand};
ghost use Rattle.hls_report_text.specs.Content.{path_names, stretch_of};
ghost use Rattle.hls_report_text.specs.ReportText.{item_text, seat_text, answer_lines, answered_lines};
ghost use Rattle.hls_report_text.specs.ReportText.{span_text, path_text, stretch_text, account_text};
ghost use Rattle.hls_report_text.specs.ReportText.{ticks_text, head_lines, end_lines, with_end, ended};
ghost use Rattle.hls_report_text.specs.ReportText.{report_text};
ghost use Rattle.hls_report_text.specs.WellFormed.{IsWellFormed, IsSeated, MayAnswer, HasShort, IsReportText};

use crate::refusals::put_refusal;
use crate::{Account, Answer, Answered, Path, Report, Run, Seated};
use hls_chron::Name;
use hls_derive::write_derivation;
use hls_guarantee::write_guarantee;
use hls_scenario::Command;
use hls_text::{put, put_number};
use std::alloc::{AllocError, Global};

/// The text of a report.
///
/// # Errors
/// Returns `AllocError` for want of memory.
#[tactic(auto, unfolding(crate::specs::ReportText::report_text))]
pub fn write_report(alloc: Global, report: &Report) -> Result<Vec<u8>, AllocError>
    requires { IsWellFormed report.now }
    ensures { IfOk result (λ text. text.items ≡ report_text report.now) }
{
    let mut out = Vec::new(alloc);
    put_head(&mut out, report.version, report.horizon, report.depth)?;
    put_all_answered(&mut out, report.version, report.answered.items())?;
    put(&mut out, b"schedule\n")?;
    put_runs(&mut out, report.names.items(), report.runs.items())?;
    put(&mut out, b"accounts\n")?;
    put_accounts(&mut out, report.accounts.items())?;
    put_end(&mut out, report.idle)?;
    Ok(out)
}

/// Appends the head of a report.
///
/// # Errors
/// Returns `AllocError` for want of memory.
pub fn put_head(out: &mut Vec<u8>, version: u8, horizon: u32, depth: u8) -> Result<(), AllocError>
    ensures { OnOk result (out.new.items ≡ out.old.items ++ ended (head_lines version horizon depth)) }
{
    put(out, b"hls-report ")?;
    put_number(out, u128::from(version))?;
    put(out, b"\nhorizon ")?;
    put_number(out, u128::from(horizon))?;
    put(out, b"\ndepth ")?;
    put_number(out, u128::from(depth))?;
    put(out, b"\n")
}

fn put_all_answered(out: &mut Vec<u8>, version: u8, answered: &[Answered]) -> Result<(), AllocError>
    requires { AllByRecursion (λ a. IsCommand version a.command × MayAnswer a.command a.answer) answered.now }
    ensures { OnOk result (out.new.items
        ≡ out.old.items ++ flat_map (λ a. ended (answered_lines version a)) answered.now) }
{
    for one in answered {
        put_answered(out, version, one.tick, &one.command, &one.answer)?;
    }
    Ok(())
}

/// Appends the lines of a command at its tick in this version of the language, and of its answer.
///
/// # Errors
/// Returns `AllocError` for want of memory.
pub fn put_answered(
    out: &mut Vec<u8>,
    version: u8,
    tick: u32,
    command: &Command,
    answer: &Answer,
) -> Result<(), AllocError>
    requires command { IsCommand version command.now }
    requires answer { MayAnswer command.now answer.now }
    ensures { OnOk result (out.new.items ≡ out.old.items
        ++ ended (answered_lines version
        (record { tick = tick; command = command.now; answer = answer.now }))) }
{
    put_command(out, version, tick, command)?;
    put(out, b"\n")?;
    put_answer(out, answer)
}

/// Appends a tick and a command, in this version of the language.
///
/// # Errors
/// Returns `AllocError` for want of memory.
pub fn put_command(
    out: &mut Vec<u8>,
    version: u8,
    tick: u32,
    command: &Command,
) -> Result<(), AllocError>
    requires { IsCommand version command.now }
    ensures { OnOk result (out.new.items
        ≡ out.old.items ++ item_text version (record { tick = tick; command = command.now })) }
{
    put(out, b"at ")?;
    put_number(out, u128::from(tick))?;
    put(out, b" ")?;
    hls_scenario::put_command(out, version, command)
}

fn put_answer(out: &mut Vec<u8>, answer: &Answer) -> Result<(), AllocError>
    requires { (command : CommandSeen) × MayAnswer command answer.now }
    ensures { OnOk result (out.new.items ≡ out.old.items ++ ended (answer_lines answer.now)) }
{
    match answer {
        Answer::Done(seats) => {
            put(out, b"= done\n")?;
            put_seats(out, seats.items())
        }
        Answer::Refused(refusal) => {
            put(out, b"= refused ")?;
            put_refusal(out, refusal)?;
            put(out, b"\n")
        }
    }
}

fn put_seats(out: &mut Vec<u8>, seats: &[Seated]) -> Result<(), AllocError>
    requires { AllByRecursion IsSeated seats.now }
    ensures { OnOk result (out.new.items
        ≡ out.old.items ++ flat_map (λ seat. with_end (seat_text seat)) seats.now) }
{
    for seat in seats {
        put_seat(out, seat)?;
    }
    Ok(())
}

fn put_seat(out: &mut Vec<u8>, seat: &Seated) -> Result<(), AllocError>
    requires { IsSeated seat.now }
    ensures { OnOk result (out.new.items ≡ out.old.items ++ with_end (seat_text seat.now)) }
{
    put(out, b"by ")?;
    put(out, seat.name.bytes())?;
    put(out, b" ")?;
    put_number(out, u128::from(seat.port))?;
    put(out, b" ")?;
    write_derivation(&seat.derivation, out)?;
    put(out, b"\n")
}

/// Appends the lines of a schedule. The places of paths are those of the names.
///
/// # Errors
/// Returns `AllocError` for want of memory.
pub fn put_runs(out: &mut Vec<u8>, names: &[Name], runs: &[Run]) -> Result<(), AllocError>
    requires { AllByRecursion (λ run. HasShort run.path) runs.now }
    ensures { OnOk result (out.new.items ≡ out.old.items
        ++ flat_map (λ run. with_end (stretch_text (stretch_of names.now run))) runs.now) }
{
    for run in runs {
        put_run(out, names, run)?;
    }
    Ok(())
}

fn put_run(out: &mut Vec<u8>, names: &[Name], run: &Run) -> Result<(), AllocError>
    requires { HasShort run.now.path }
    ensures { OnOk result (out.new.items
        ≡ out.old.items ++ with_end (stretch_text (stretch_of names.now run.now))) }
{
    put_span(out, run.from, run.to)?;
    match &run.path {
        Some(path) => {
            put(out, b" cpu")?;
            put_path(out, names, path)?;
            put(out, b"\n")
        }
        None => put(out, b" idle\n"),
    }
}

fn put_path(out: &mut Vec<u8>, names: &[Name], path: &Path) -> Result<(), AllocError>
    requires { path.now.len ≤ 9 }
    ensures { OnOk result (out.new.items ≡ out.old.items
        ++ flat_map (λ name. codes "/" ++ name) (path_names names.now path.now)) }
{
    put_places(out, names, &path.names[..usize::from(path.len)])
}

fn put_places(out: &mut Vec<u8>, names: &[Name], places: &[u16]) -> Result<(), AllocError>
    ensures { OnOk result (out.new.items ≡ out.old.items
        ++ flat_map (λ place. codes "/" ++ get_or names.now place []) places.now) }
{
    for place in places {
        put(out, b"/")?;
        put_named_at(out, names, *place)?;
    }
    Ok(())
}

/// Appends the name at that place, where there is one.
fn put_named_at(out: &mut Vec<u8>, names: &[Name], place: u16) -> Result<(), AllocError>
    ensures { OnOk result (out.new.items ≡ out.old.items ++ get_or names.now place []) }
{
    match names.get(usize::from(place)) {
        Some(name) => put(out, name.bytes()),
        None => Ok(()),
    }
}

fn put_span(out: &mut Vec<u8>, from: u32, to: u32) -> Result<(), AllocError>
    ensures { OnOk result (out.new.items ≡ out.old.items ++ span_text from to) }
{
    put_number(out, u128::from(from))?;
    put(out, b"..")?;
    put_number(out, u128::from(to))
}

fn put_accounts(out: &mut Vec<u8>, accounts: &[Account]) -> Result<(), AllocError>
    requires { AllByRecursion (λ a. IsValid a.kept) accounts.now }
    ensures { OnOk result (out.new.items
        ≡ out.old.items ++ flat_map (λ a. with_end (account_text a)) accounts.now) }
{
    for account in accounts {
        put_account(out, account)?;
    }
    Ok(())
}

/// Appends the line of an account.
///
/// # Errors
/// Returns `AllocError` for want of memory.
pub fn put_account(out: &mut Vec<u8>, account: &Account) -> Result<(), AllocError>
    requires { IsValid account.now.kept }
    ensures { OnOk result (out.new.items ≡ out.old.items ++ with_end (account_text account.now)) }
{
    put(out, account.name.bytes())?;
    put(out, b" ")?;
    put_span(out, account.from, account.to)?;
    put(out, b" ")?;
    write_guarantee(&account.kept, out)?;
    put_ticks(out, account.ready, account.served)?;
    put(out, b"\n")
}

fn put_ticks(out: &mut Vec<u8>, ready: u32, served: u32) -> Result<(), AllocError>
    ensures { OnOk result (out.new.items ≡ out.old.items ++ ticks_text ready served) }
{
    put(out, b" ready ")?;
    put_number(out, u128::from(ready))?;
    put(out, b" served ")?;
    put_number(out, u128::from(served))
}

/// Appends the number of idle ticks and the last line of a report.
///
/// # Errors
/// Returns `AllocError` for want of memory.
pub fn put_end(out: &mut Vec<u8>, idle: u32) -> Result<(), AllocError>
    ensures { OnOk result (out.new.items ≡ out.old.items ++ ended (end_lines idle)) }
{
    put(out, b"idle ")?;
    put_number(out, u128::from(idle))?;
    put(out, b"\nend\n")
}
