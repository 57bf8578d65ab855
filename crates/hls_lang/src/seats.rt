// Guarantees, terms, configurations and the seats that are asked for.
ghost use Rattle.std.specs.Prelude.{◌≡◌, ◌≤◌, codes};
ghost use Rattle.hls_text.specs.Tokens.{tokens_of};
ghost use Rattle.hls_lang.specs.Words.{Gives, word_at, number_at, pair_at};
ghost use Rattle.hls_lang.specs.Reading.{share_at, reservation_at, guarantee_by, guarantee_at};
ghost use Rattle.hls_lang.specs.Reading.{hardness_at, budget_at};
ghost use Rattle.hls_lang.specs.Reading.{numbered_terms_at, terms_by, terms_at, shares_at};
ghost use Rattle.hls_lang.specs.Reading.{quantum_at, numbered_config_at, config_by};
ghost use Rattle.hls_lang.specs.Reading.{under_at, spot_by, spot_at, wanted_at, perch_at, last_perch_at};

use crate::fractions::{fraction, rate};
use crate::words::{Pair, end, number, number_pair, token, word};
use crate::{Cause, Perch, Spot};
use hls_chron::{Config, Name, Terms};
use hls_guarantee::Guarantee;

/// The greatest number of a guarantee, and of the terms of a reservation.
const MOST_TICKS: u32 = 20_000;

const MOST_BUDGET: u32 = 10_000;

#[tactic(auto, unfolding(crate::specs::Reading::share_at))]
fn share(line: &[u8]) -> Result<(Guarantee, &[u8]), Cause>
    ensures { Gives (λ p. (p.0, tokens_of p.1.now)) result (share_at (tokens_of line.now)) }
{
    let (s, rest) = rate(line)?;
    let (d, rest) = fraction(rest)?;
    Ok((Guarantee::Psbe { s, d }, rest))
}

#[tactic(auto, unfolding(crate::specs::Reading::reservation_at))]
fn blocks(line: &[u8], hard: bool) -> Result<(Guarantee, &[u8]), Cause>
    ensures { Gives (λ p. (p.0, tokens_of p.1.now)) result
        (reservation_at (λ x y. Guarantee.Resb hard x y) (tokens_of line.now)) }
{
    let Pair { x, y, rest } = number_pair(line, MOST_TICKS)?;
    Ok((Guarantee::Resb { hard, x, y }, rest))
}

#[tactic(auto, unfolding(crate::specs::Reading::reservation_at))]
fn windows(line: &[u8], hard: bool) -> Result<(Guarantee, &[u8]), Cause>
    ensures { Gives (λ p. (p.0, tokens_of p.1.now)) result
        (reservation_at (λ x y. Guarantee.Resc hard x y) (tokens_of line.now)) }
{
    let Pair { x, y, rest } = number_pair(line, MOST_TICKS)?;
    Ok((Guarantee::Resc { hard, x, y }, rest))
}

#[tactic(auto, unfolding(crate::specs::Reading::guarantee_by))]
fn guarantee_after<'a>(word: &[u8], line: &'a [u8]) -> Result<(Guarantee, &'a [u8]), Cause>
    ensures { Gives (λ p. (p.0, tokens_of p.1.now)) result
        (guarantee_by word.now (tokens_of line.entry.now)) }
{
    if word == b"ALL".as_slice() {
        Ok((Guarantee::All, line))
    } else if word == b"NULL".as_slice() {
        Ok((Guarantee::Null, line))
    } else if word == b"RESBH".as_slice() {
        blocks(line, true)
    } else if word == b"RESBS".as_slice() {
        blocks(line, false)
    } else if word == b"RESCH".as_slice() {
        windows(line, true)
    } else if word == b"RESCS".as_slice() {
        windows(line, false)
    } else if word == b"PSBE".as_slice() {
        share(line)
    } else {
        Err(Cause::Word)
    }
}

#[tactic(auto, unfolding(crate::specs::Reading::guarantee_at))]
pub fn guarantee(line: &[u8]) -> Result<(Guarantee, &[u8]), Cause>
    ensures { Gives (λ p. (p.0, tokens_of p.1.now)) result (guarantee_at (tokens_of line.now)) }
{
    let (found, rest) = token(line)?;
    guarantee_after(found, rest)
}

#[tactic(auto, unfolding(crate::specs::Reading::hardness_at))]
fn hardness(line: &[u8]) -> Result<(bool, &[u8]), Cause>
    ensures { Gives (λ p. (p.0, tokens_of p.1.now)) result (hardness_at (tokens_of line.now)) }
{
    let (found, rest) = token(line)?;
    if found == b"hard".as_slice() {
        Ok((true, rest))
    } else if found == b"soft".as_slice() {
        Ok((false, rest))
    } else {
        Err(Cause::Word)
    }
}

#[tactic(auto, unfolding(crate::specs::Reading::budget_at))]
fn budget(line: &[u8]) -> Result<(Terms, &[u8]), Cause>
    ensures { Gives (λ p. (p.0, tokens_of p.1.now)) result (budget_at (tokens_of line.now)) }
{
    let Pair { x, y, rest } = number_pair(line, MOST_BUDGET)?;
    let (hard, rest) = hardness(rest)?;
    Ok((Terms::Res { hard, x, y }, rest))
}

#[tactic(auto, unfolding(crate::specs::Reading::terms_by, crate::specs::Reading::numbered_terms_at))]
fn terms_after<'a>(word: &[u8], line: &'a [u8]) -> Result<(Terms, &'a [u8]), Cause>
    ensures { Gives (λ p. (p.0, tokens_of p.1.now)) result (terms_by word.now (tokens_of line.entry.now)) }
{
    if word == b"prio".as_slice() {
        let (priority, rest) = number(line, 0, 31)?;
        Ok((Terms::Prio(priority), rest))
    } else if word == b"res".as_slice() {
        budget(line)
    } else if word == b"weight".as_slice() {
        let (weight, rest) = number(line, 1, 20)?;
        Ok((Terms::Weight(weight), rest))
    } else if word == b"slots".as_slice() {
        let (places, rest) = number(line, 1, 1000)?;
        Ok((Terms::Slots(places), rest))
    } else if word == b"turn".as_slice() {
        Ok((Terms::Turn, line))
    } else if word == b"sole".as_slice() {
        Ok((Terms::Sole, line))
    } else {
        Err(Cause::Word)
    }
}

#[tactic(auto, unfolding(crate::specs::Reading::terms_at))]
fn terms(line: &[u8]) -> Result<(Terms, &[u8]), Cause>
    ensures { Gives (λ p. (p.0, tokens_of p.1.now)) result (terms_at (tokens_of line.now)) }
{
    let (found, rest) = token(line)?;
    terms_after(found, rest)
}

/// The quantum of fair queueing, which version 1 has no word for.
#[tactic(auto, unfolding(crate::specs::Reading::quantum_at))]
fn quantum(version: u8, line: &[u8]) -> Result<(u32, &[u8]), Cause>
    ensures { Gives (λ p. (p.0, tokens_of p.1.now)) result (quantum_at version (tokens_of line.now)) }
{
    if version == 1 {
        return Ok((1, line));
    }
    number(line, 1, 100)
}

#[tactic(auto, unfolding(crate::specs::Reading::shares_at))]
fn shares(version: u8, line: &[u8]) -> Result<(Config, &[u8]), Cause>
    ensures { Gives (λ p. (p.0, tokens_of p.1.now)) result (shares_at version (tokens_of line.now)) }
{
    let (total, rest) = number(line, 1, 100)?;
    let (most, rest) = number(rest, 1, 20)?;
    let (quantum, rest) = quantum(version, rest)?;
    let config = Config::Sfq {
        total,
        most,
        quantum,
    };
    Ok((config, rest))
}

/// The configuration, but a join's, that begins with this word.
#[tactic(auto, unfolding(crate::specs::Reading::config_by, crate::specs::Reading::numbered_config_at))]
pub fn config_after<'a>(
    version: u8,
    word: &[u8],
    line: &'a [u8],
) -> Result<(Config, &'a [u8]), Cause>
    ensures { Gives (λ p. (p.0, tokens_of p.1.now)) result
        (config_by version word.now (tokens_of line.entry.now)) }
{
    if word == b"fp".as_slice() {
        Ok((Config::Fp, line))
    } else if word == b"edf".as_slice() {
        Ok((Config::Edf, line))
    } else if word == b"sfq".as_slice() {
        shares(version, line)
    } else if word == b"rr".as_slice() {
        let (quantum, rest) = number(line, 1, 100)?;
        Ok((Config::Rr { quantum }, rest))
    } else if word == b"wheel".as_slice() {
        let (frame, rest) = number(line, 1, 1000)?;
        Ok((Config::Wheel { frame }, rest))
    } else {
        Err(Cause::Word)
    }
}

/// The terms of a seat on a scheduler.
#[tactic(auto, unfolding(crate::specs::Reading::under_at))]
pub fn under(sched: Name, line: &[u8]) -> Result<(Spot, &[u8]), Cause>
    ensures { Gives (λ p. (p.0, tokens_of p.1.now)) result (under_at sched (tokens_of line.now)) }
{
    let (terms, rest) = terms(line)?;
    Ok((Spot::Under { sched, terms }, rest))
}

#[tactic(auto, unfolding(crate::specs::Reading::spot_by))]
fn spot_after<'a>(word: &[u8], line: &'a [u8]) -> Result<(Spot, &'a [u8]), Cause>
    ensures { Gives (λ p. (p.0, tokens_of p.1.now)) result (spot_by word.now (tokens_of line.entry.now)) }
{
    if word == b"cpu".as_slice() {
        return Ok((Spot::Cpu, line));
    }
    match Name::read(word) {
        Some(sched) => under(sched, line),
        None => Err(Cause::Word),
    }
}

#[tactic(auto, unfolding(crate::specs::Reading::spot_at))]
fn spot(line: &[u8]) -> Result<(Spot, &[u8]), Cause>
    ensures { Gives (λ p. (p.0, tokens_of p.1.now)) result (spot_at (tokens_of line.now)) }
{
    let (found, rest) = token(line)?;
    spot_after(found, rest)
}

/// What is wanted at a spot.
#[tactic(auto, unfolding(crate::specs::Reading::wanted_at))]
pub fn wanted(spot: Spot, line: &[u8]) -> Result<(Perch, &[u8]), Cause>
    ensures { Gives (λ p. (p.0, tokens_of p.1.now)) result (wanted_at spot (tokens_of line.now)) }
{
    let rest = word(line, b"as")?;
    let (want, rest) = guarantee(rest)?;
    Ok((Perch { spot, want }, rest))
}

#[tactic(auto, unfolding(crate::specs::Reading::perch_at))]
fn perch(line: &[u8]) -> Result<(Perch, &[u8]), Cause>
    ensures { Gives (λ p. (p.0, tokens_of p.1.now)) result (perch_at (tokens_of line.now)) }
{
    match spot(line) {
        Ok((spot, rest)) => wanted(spot, rest),
        Err(cause) => Err(cause),
    }
}

/// A perch that ends the line.
#[tactic(auto, unfolding(crate::specs::Reading::last_perch_at))]
pub fn last_perch(line: &[u8]) -> Result<Perch, Cause>
    ensures { Gives (λ p. p) result (last_perch_at (tokens_of line.now)) }
{
    match perch(line) {
        Ok((perch, rest)) => match end(rest) {
            Ok(()) => Ok(perch),
            Err(cause) => Err(cause),
        },
        Err(cause) => Err(cause),
    }
}
