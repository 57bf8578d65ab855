// Reading the commands with their answers.
ghost use Rattle.hls_chron.specs.Ranges.{longest_horizon};
ghost use Rattle.std.specs.Prelude.{◌≡◌, ◌↔◌, ℕ, ◌≤◌, ◌++◌, ◌∷◌, [], codes, length, map, flat_map, None};
ghost use Rattle.std.specs.Prelude.{OnOk, IfOk, IfErr, IfSome, Some, IsTrue};
ghost use Rattle.hls_report_text.specs.ReportText.{refusal_text, seat_text, answer_lines, answered_lines};
ghost use Rattle.hls_report_text.specs.WellFormed.{IsRefusal, TakesSeats, AreSeats, MayAnswer, AreAnswered};
ghost use Rattle.hls_report.specs.Inside.Rests.{CanCount, Passes, FailsAt, CommandRest, AnswerRest, RunRest};
ghost use Rattle.hls_report.specs.Inside.CommandLines.{SeatPasses, SeatsPass, AnswerPasses, ItemPasses};
ghost use Rattle.hls_report.specs.Inside.CommandLines.{CommandPasses};

use crate::ReportFault;
use crate::line_reading::{item, seat};
use crate::lines::Lines;
use crate::refusal_reading::refusal;
use hls_chron::List;
use hls_report_text::{Answer, Answered, Refusal, Seated};
use hls_scenario::{Command, Item};
use hls_text::after;
use std::alloc::{AllocError, Global};

/// How many commands a report has at most.
const MOST_COMMANDS: u32 = 65_536;

/// Whether seats may be told behind the command.
fn takes_seats(command: &Command) -> bool
    ensures { IsTrue result ↔ TakesSeats command.now }
{
    matches!(
        command,
        Command::Load { .. } | Command::Thread { .. } | Command::Move { .. }
    )
}

/// Reads the next line, where it is a seat's.
fn next_seat(
    alloc: Global,
    lines: &mut Lines<'_>,
    command: &Command,
) -> Result<Option<Seated>, AllocError>
    requires { CanCount lines.old }
    ensures { IfOk result (λ found. SeatPasses command.now found lines.old lines.new) }
{
    if !takes_seats(command) {
        return Ok(None);
    }
    let mut ahead = Lines {
        rest: lines.rest,
        count: lines.count,
    };
    let Some(line) = ahead.next() else {
        return Ok(None);
    };
    match seat(alloc, line)? {
        Some(seat) => {
            *lines = ahead;
            Ok(Some(seat))
        }
        None => Ok(None),
    }
}

fn keep_seat(seats: &mut Vec<Seated>, seat: Seated) -> Result<(), AllocError>
    ensures { OnOk result (seats.new.items ≡ seats.old.items ++ seat ∷ []) }
{
    // Most commands tell one seat, and a seat is large: the first takes room for one.
    if seats.is_empty() {
        seats.reserve_exact(1)?;
    }
    seats.push(seat)?;
    Ok(())
}

/// Reads the seats of a command that was done.
fn seats(alloc: Global, lines: &mut Lines<'_>, command: &Command) -> Result<Vec<Seated>, AllocError>
    requires { CanCount lines.old }
    ensures { IfOk result (λ seats. AreSeats command.now seats.items
        × SeatsPass command.now (map seat_text seats.items) lines.old lines.new) }
{
    let mut seats = Vec::new(alloc);
    while let Some(seat) = next_seat(alloc, lines, command)? {
        keep_seat(&mut seats, seat)?;
    }
    Ok(seats)
}

/// The refusal that a line tells.
fn refused(line: &[u8]) -> Option<Refusal>
    ensures found { IfSome result (λ r. IsRefusal r × (line.now ≡ codes "= refused " ++ refusal_text r)) }
    ensures exact { (r : Refusal) → IsRefusal r → line.now ≡ codes "= refused " ++ refusal_text r →
        result ≡ Some r }
{
    refusal(after(line, b"= refused ")?)
}

/// Reads the answer to a command.
fn answer(alloc: Global, lines: &mut Lines<'_>, command: &Command) -> Result<Answer, ReportFault>
    requires { CanCount lines.old }
    ensures ok { IfOk result (λ answer. MayAnswer command.now answer
        × AnswerPasses command.now (answer_lines answer) lines.old lines.new) }
    ensures err { IfErr result (λ fault. (version horizon last left : ℕ) →
        FailsAt (AnswerRest command.now version horizon last left) lines.old fault) }
{
    let Some(line) = lines.next() else {
        return Err(lines.fault());
    };
    if line == b"= done".as_slice() {
        let seats = seats(alloc, lines, command)?;
        return Ok(Answer::Done(List::of(seats)));
    }
    match refused(line) {
        Some(refusal) => Ok(Answer::Refused(refusal)),
        None => Err(lines.fault()),
    }
}

/// Reads the line of a command, where so many may come, or the line behind the last.
fn next_item(
    alloc: Global,
    lines: &mut Lines<'_>,
    version: u8,
    horizon: u32,
    last: u32,
    left: u32,
) -> Result<Option<Item>, ReportFault>
    requires room { CanCount lines.old }
    requires few { horizon ≤ longest_horizon }
    ensures ok { IfOk result (λ found. ItemPasses version horizon last left found lines.old lines.new) }
    ensures err { IfErr result (λ fault. FailsAt (CommandRest version horizon last left) lines.old fault) }
{
    let Some(line) = lines.next() else {
        return Err(lines.fault());
    };
    if line == b"schedule".as_slice() {
        return Ok(None);
    }
    if left == 0 {
        return Err(lines.fault());
    }
    match item(alloc, version, line, horizon, last)? {
        Some(item) => Ok(Some(item)),
        None => Err(lines.fault()),
    }
}

/// Reads the next command with its answer, or the line behind the last.
fn next_command(
    alloc: Global,
    lines: &mut Lines<'_>,
    version: u8,
    horizon: u32,
    last: u32,
    left: u32,
) -> Result<Option<Answered>, ReportFault>
    requires room { CanCount lines.old }
    requires few { horizon ≤ longest_horizon }
    ensures ok { IfOk result (λ found. CommandPasses version horizon last left found lines.old lines.new) }
    ensures err { IfErr result (λ fault. FailsAt (CommandRest version horizon last left) lines.old fault) }
{
    match next_item(alloc, lines, version, horizon, last, left)? {
        Some(item) => {
            let answer = answer(alloc, lines, &item.command)?;
            Ok(Some(Answered {
                tick: item.tick,
                command: item.command,
                answer,
            }))
        }
        None => Ok(None),
    }
}

fn keep_answered(answered: &mut Vec<Answered>, one: Answered) -> Result<(), AllocError>
    ensures { OnOk result (answered.new.items ≡ answered.old.items ++ one ∷ []) }
{
    answered.push(one)?;
    Ok(())
}

/// Reads the commands with their answers, and the line behind the last.
pub fn commands(
    alloc: Global,
    lines: &mut Lines<'_>,
    version: u8,
    horizon: u32,
) -> Result<Vec<Answered>, ReportFault>
    requires room { CanCount lines.old }
    requires few { horizon ≤ longest_horizon }
    ensures ok { IfOk result (λ answered. AreAnswered version horizon 0 answered.items
        × (length answered.items ≤ 65536)
        × Passes (CommandRest version horizon 0 65536) (RunRest horizon 0 None [])
        (flat_map (answered_lines version) answered.items ++ codes "schedule" ∷ []) lines.old lines.new) }
    ensures err { IfErr result (λ fault. FailsAt (CommandRest version horizon 0 65536) lines.old fault) }
{
    let mut answered = Vec::new(alloc);
    let mut last = 0;
    let mut left = MOST_COMMANDS;
    while let Some(one) = next_command(alloc, lines, version, horizon, last, left)? {
        last = one.tick;
        left -= 1;
        keep_answered(&mut answered, one)?;
    }
    Ok(answered)
}
