// Terms and guarantees, which are read as those of a thread that is admitted. Each version spells them alike: they are
// read by the first.
ghost use Rattle.std.specs.Prelude.{◌≡◌, List, map, string_bytes, IfOk, MatchOption};
ghost use Rattle.hls_text.specs.Lines.{Text};
ghost use Rattle.hls_text.specs.Tokens.{tokens_of};
ghost use Rattle.hls_scenario.specs.declared.scenario.Perch.{Perch as PerchSeen};
ghost use Rattle.hls_scenario.specs.declared.scenario.Spot.TheVariants.{Cpu, Under};
ghost use Rattle.hls_scenario.specs.declared.scenario.Command.TheVariants.{Thread};
ghost use Rattle.hls_offer_words.specs.Inside.Spellings.{terms_count, wanted_count};
ghost use Rattle.hls_offer_words.specs.Inside.Readings.{AdmitsOn, AdmitsNowhere, AdmitsWith, AdmitsNobody};
ghost use Rattle.hls_offer_words.specs.Inside.Readings.{IsTermsIn, IsNoTermsIn};
ghost use Rattle.hls_offer_words.specs.Inside.Readings.{IsTermsBefore, IsNoTerms, IsWantedIn, IsNoWantedIn};
ghost use Rattle.hls_offer_words.specs.Inside.Readings.{IsWanted, IsNoWanted};

use crate::spelling::{are_words, put_words};
use hls_chron::Terms;
use hls_guarantee::Guarantee;
use hls_lang::{Command, Spot, read_item};
use hls_text::put;
use std::alloc::{AllocError, Global};

/// The terms at a spot.
fn terms_at(spot: Spot) -> Option<Terms>
    ensures { MatchOption result (spot ≡ Cpu) (λ terms. (sched : Text) × (spot ≡ Under sched terms)) }
{
    match spot {
        Spot::Under { sched: _, terms } => Some(terms),
        Spot::Cpu => None,
    }
}

/// The terms on which a command admits a thread.
fn terms_by(command: &Command) -> Option<Terms>
    ensures { MatchOption result
        ((name : Text) (perch : PerchSeen) → command.now ≡ Thread name perch → perch.spot ≡ Cpu)
        (λ terms. (name : Text) × (perch : PerchSeen) × (sched : Text) × (command.now ≡ Thread name perch) ×
        (perch.spot ≡ Under sched terms)) }
{
    match command {
        Command::Thread { perch, .. } => terms_at(perch.spot),
        _ => None,
    }
}

/// The guarantee with which a command admits a thread.
fn wanted_by(command: &Command) -> Option<Guarantee>
    ensures { MatchOption result ((name : Text) (perch : PerchSeen) → command.now ≡ Thread name perch → ⊥)
        (λ wanted. (name : Text) × (perch : PerchSeen) × (command.now ≡ Thread name perch) ×
        (perch.want ≡ wanted)) }
{
    match command {
        Command::Thread { perch, .. } => Some(perch.want),
        _ => None,
    }
}

/// The terms on which a line, all of it, admits a thread.
fn terms_on(alloc: Global, line: &[u8]) -> Result<Option<Terms>, AllocError>
    ensures { IfOk result (λ found. MatchOption found (AdmitsNowhere (tokens_of line.now))
        (AdmitsOn (tokens_of line.now))) }
{
    match read_item(alloc, 1, line, 1, 0)? {
        Some(item) => Ok(terms_by(&item.command)),
        None => Ok(None),
    }
}

/// The guarantee with which a line, all of it, admits a thread.
fn wanted_on(alloc: Global, line: &[u8]) -> Result<Option<Guarantee>, AllocError>
    ensures { IfOk result (λ found. MatchOption found (AdmitsNobody (tokens_of line.now))
        (AdmitsWith (tokens_of line.now))) }
{
    match read_item(alloc, 1, line, 1, 0)? {
        Some(item) => Ok(wanted_by(&item.command)),
        None => Ok(None),
    }
}

/// The terms that begin these words with those of a guarantee behind them.
fn terms_of(alloc: Global, words: &[String]) -> Result<Option<Terms>, AllocError>
    ensures { IfOk result (λ found. MatchOption found (IsNoTerms (map string_bytes words.now))
        (IsTermsBefore (map string_bytes words.now))) }
{
    if !are_words(words) {
        return Ok(None);
    }
    let mut line = Vec::new(alloc);
    put(&mut line, b"at 0 thread a on a")?;
    put_words(&mut line, words)?;
    put(&mut line, b" as NULL")?;
    terms_on(alloc, &line)
}

/// The guarantee that the words spell.
fn wanted_of(alloc: Global, words: &[String]) -> Result<Option<Guarantee>, AllocError>
    ensures { IfOk result (λ found. MatchOption found (IsNoWanted (map string_bytes words.now))
        (IsWanted (map string_bytes words.now))) }
{
    if !are_words(words) {
        return Ok(None);
    }
    let mut line = Vec::new(alloc);
    put(&mut line, b"at 0 thread a on a turn as")?;
    put_words(&mut line, words)?;
    wanted_on(alloc, &line)
}

/// How many words terms have that begin with this one.
fn terms_count(first: &[u8]) -> usize
    ensures { result ≡ terms_count first.now }
{
    if first == b"res".as_slice() {
        4
    } else if first == b"turn".as_slice() || first == b"sole".as_slice() {
        1
    } else {
        2
    }
}

/// How many words a guarantee has that begins with this one.
fn wanted_count(first: &[u8]) -> usize
    ensures { result ≡ wanted_count first.now }
{
    if first == b"ALL".as_slice() || first == b"NULL".as_slice() {
        1
    } else {
        3
    }
}

/// The terms that begin the words, and the words behind them.
///
/// # Errors
/// Returns `AllocError` for want of memory.
pub fn terms_in<'a>(
    alloc: Global,
    words: &'a [String],
) -> Result<Option<(Terms, &'a [String])>, AllocError>
    ensures { IfOk result (λ found. MatchOption found (IsNoTermsIn (map string_bytes words.entry.now))
        (λ p. IsTermsIn (map string_bytes words.entry.now) p.0 (map string_bytes p.1.now))) }
{
    let Some(first) = words.first() else {
        return Ok(None);
    };
    let count = terms_count(first.as_bytes());
    if words.len() < count {
        return Ok(None);
    }
    match terms_of(alloc, &words[..count])? {
        Some(terms) => Ok(Some((terms, &words[count..]))),
        None => Ok(None),
    }
}

/// The guarantee that begins the words, and the words behind it.
///
/// # Errors
/// Returns `AllocError` for want of memory.
pub fn wanted_in<'a>(
    alloc: Global,
    words: &'a [String],
) -> Result<Option<(Guarantee, &'a [String])>, AllocError>
    ensures { IfOk result (λ found. MatchOption found (IsNoWantedIn (map string_bytes words.entry.now))
        (λ p. IsWantedIn (map string_bytes words.entry.now) p.0 (map string_bytes p.1.now))) }
{
    let Some(first) = words.first() else {
        return Ok(None);
    };
    let count = wanted_count(first.as_bytes());
    if words.len() < count {
        return Ok(None);
    }
    match wanted_of(alloc, &words[..count])? {
        Some(wanted) => Ok(Some((wanted, &words[count..]))),
        None => Ok(None),
    }
}
