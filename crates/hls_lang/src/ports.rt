// The perches of a join.
ghost use Rattle.std.specs.Prelude.{◌≡◌, ◌+◌, ◌≤◌, OnOk, IfOk, vec_len};
ghost use Rattle.hls_text.specs.Tokens.{tokens_of};
ghost use Rattle.hls_lang.specs.Words.{Gives, Keeps};
ghost use Rattle.hls_lang.specs.Reading.{is_at, is_used, fresh_name_at, port_at, next_port_at, comma_port_at};
ghost use Rattle.hls_lang.specs.Reading.{fourth_port_at, third_port_at, ports_at};

use crate::line_error::LineError;
use crate::seats::{under, wanted};
use crate::words::{end, name, word};
use crate::{Cause, Perch, Spot};
use hls_chron::Name;
use hls_text::next_token;
use std::alloc::{AllocError, Global};

fn is_at(sched: &Name, spot: &Spot) -> bool
    ensures { result ≡ is_at sched.now spot.now }
{
    match spot {
        Spot::Cpu => false,
        Spot::Under { sched: other, .. } => other.bytes() == sched.bytes(),
    }
}

/// Whether one of the perches is on this scheduler.
fn is_used(sched: &Name, perches: &[Perch]) -> bool
    ensures { result ≡ is_used sched.now perches.now }
{
    perches.iter().any(|perch| is_at(sched, &perch.spot))
}

#[tactic(auto, unfolding(crate::specs::Reading::fresh_name_at))]
fn fresh_name<'a>(perches: &[Perch], line: &'a [u8]) -> Result<(Name, &'a [u8]), Cause>
    ensures { Gives (λ p. (p.0, tokens_of p.1.now)) result
        (fresh_name_at perches.now (tokens_of line.entry.now)) }
{
    match name(line) {
        Ok((name, rest)) => {
            if is_used(&name, perches) {
                Err(Cause::Name)
            } else {
                Ok((name, rest))
            }
        }
        Err(cause) => Err(cause),
    }
}

/// A perch at a scheduler that no earlier perch is at.
#[tactic(auto, unfolding(crate::specs::Reading::port_at))]
fn port<'a>(perches: &[Perch], line: &'a [u8]) -> Result<(Perch, &'a [u8]), Cause>
    ensures { Gives (λ p. (p.0, tokens_of p.1.now)) result (port_at perches.now (tokens_of line.entry.now)) }
{
    match fresh_name(perches, line) {
        Ok((name, rest)) => match under(name, rest) {
            Ok((spot, rest)) => wanted(spot, rest),
            Err(cause) => Err(cause),
        },
        Err(cause) => Err(cause),
    }
}

/// One more perch, which is kept.
#[tactic(auto, unfolding(crate::specs::Reading::next_port_at))]
fn next_port<'a>(perches: &mut Vec<Perch>, line: &'a [u8]) -> Result<&'a [u8], LineError>
    ensures read { Keeps (λ r. (perches.new.items, tokens_of r.now)) result
        (next_port_at perches.old.items (tokens_of line.entry.now)) }
    ensures one { OnOk result (vec_len perches.new ≡ vec_len perches.old + 1) }
{
    match port(perches, line) {
        Ok((perch, rest)) => match perches.push(perch) {
            Ok(()) => Ok(rest),
            Err(wanting) => Err(LineError::Memory(AllocError::from(wanting))),
        },
        Err(cause) => Err(LineError::Fault(cause)),
    }
}

#[tactic(auto, unfolding(crate::specs::Reading::comma_port_at))]
fn comma_port<'a>(perches: &mut Vec<Perch>, line: &'a [u8]) -> Result<&'a [u8], LineError>
    ensures read { Keeps (λ r. (perches.new.items, tokens_of r.now)) result
        (comma_port_at perches.old.items (tokens_of line.entry.now)) }
    ensures one { OnOk result (vec_len perches.new ≡ vec_len perches.old + 1) }
{
    let rest = word(line, b",")?;
    next_port(perches, rest)
}

/// A fourth perch, unless the line ends.
#[tactic(auto, unfolding(crate::specs::Reading::fourth_port_at))]
fn fourth_port(perches: &mut Vec<Perch>, line: &[u8]) -> Result<(), LineError>
    ensures read { Keeps (λ u. perches.new.items) result
        (fourth_port_at perches.old.items (tokens_of line.now)) }
    ensures few { OnOk result (vec_len perches.new ≤ vec_len perches.old + 1) }
{
    if next_token(line).is_none() {
        return Ok(());
    }
    let rest = comma_port(perches, line)?;
    end(rest)?;
    Ok(())
}

/// A third perch and a fourth, unless the line ends.
#[tactic(auto, unfolding(crate::specs::Reading::third_port_at))]
fn third_port(perches: &mut Vec<Perch>, line: &[u8]) -> Result<(), LineError>
    ensures read { Keeps (λ u. perches.new.items) result
        (third_port_at perches.old.items (tokens_of line.now)) }
    ensures few { OnOk result (vec_len perches.new ≤ vec_len perches.old + 2) }
{
    if next_token(line).is_none() {
        return Ok(());
    }
    let rest = comma_port(perches, line)?;
    fourth_port(perches, rest)
}

/// Two to four perches, up to the end of the line.
#[tactic(auto, unfolding(crate::specs::Reading::ports_at))]
pub fn ports(alloc: Global, line: &[u8]) -> Result<Vec<Perch>, LineError>
    ensures read { Keeps (λ perches. perches.items) result (ports_at (tokens_of line.now)) }
    ensures few { IfOk result (λ perches. vec_len perches ≤ 4) }
{
    let mut perches = Vec::new(alloc);
    let rest = next_port(&mut perches, line)?;
    let rest = comma_port(&mut perches, rest)?;
    third_port(&mut perches, rest)?;
    Ok(perches)
}
