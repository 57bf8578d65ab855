// What clap's matches ask for.
ghost use Rattle.std.specs.Prelude.{◌≡◌, ℕ, Option, IfOk, IfSome, IsNone, MatchOption, map, string_bytes, option_map};
ghost use Rattle.clap.specs.Words.{first_of, found_of, rows_of, subcommand_rows_of};
ghost use Rattle.hls_offer_words.specs.Table.{IsAtMost, most_period};
ghost use Rattle.hls_offer_words.specs.Inside.Readings.{HasTail, HasNoTail};
ghost use Rattle.hls_offer_words.specs.Inside.Shapes.{told, told_of, words_in};
ghost use Rattle.hls_offer_words.specs.Inside.Shapes.{MayTell, TellsAsked, TellsNumber};

use crate::numbers::number_to;
use crate::periods::over_in;
use crate::questions::question_in;
use crate::{Asked, Question};
use clap::ArgMatches;
use std::alloc::{AllocError, Global};

/// The greatest tick that can be asked about.
const MOST_TICK: u32 = 99_999;

/// The most conversions of a derivation.
const MOST_DEPTH: u32 = 6;

/// The longest window or block of a guarantee that is told, in ticks.
const MOST_WINDOW: u32 = 20_000;

/// The longest period of the terms of a seat that are told, in ticks.
const MOST_PERIOD: u32 = 10_000;

/// The moment that is asked about.
#[derive(Clone, Copy)]
struct Moment {
    at: Option<u32>,
    depth: Option<u32>,
}

/// The number of at most so much that an option states, or that it is left out.
fn stated(text: Option<&str>, most: u32) -> Option<Option<u32>>
    ensures found { IfSome result (TellsNumber most (option_map (λ t. t.now) text.entry)) }
    ensures none { IsNone result → (n : Option ℕ) → ¬ TellsNumber most (option_map (λ t. t.now) text.entry) n }
{
    match text {
        Some(text) => Some(Some(number_to(text, most)?)),
        None => Some(None),
    }
}

/// The number of at most so much that was found for an option, or that it is left out.
fn number_found(matches: &ArgMatches<'_>, option: &str, most: u32) -> Option<Option<u32>>
    ensures found { IfSome result (TellsNumber most (first_of option.now (rows_of (found_of matches.now)))) }
    ensures none { IsNone result → (n : Option ℕ) →
        ¬ TellsNumber most (first_of option.now (rows_of (found_of matches.now))) n }
{
    stated(matches.get_str(option), most)
}

/// Copies of these words.
fn copied(alloc: Global, found: &[&str]) -> Result<Vec<String>, AllocError>
    ensures { IfOk result (λ words. map string_bytes words.items ≡ map (λ word. word.now) found.now) }
{
    let mut words = Vec::new(alloc);
    for word in found {
        words.push(word.to_string(alloc)?)?;
    }
    Ok(words)
}

/// The words that were found behind the first one.
fn words_found(alloc: Global, matches: &ArgMatches<'_>) -> Result<Vec<String>, AllocError>
    ensures { IfOk result (λ words. map string_bytes words.items ≡ words_in (rows_of (found_of matches.now))) }
{
    match matches.get_strs("words") {
        Some(found) => copied(alloc, found),
        None => Ok(Vec::new(alloc)),
    }
}

/// The longest period that may be stated for a question.
fn most_period(question: &Question) -> u32
    ensures { result ≡ most_period question.now }
{
    match question {
        Question::Offer { .. } => MOST_WINDOW,
        Question::Need { .. } | Question::Spare => MOST_PERIOD,
    }
}

/// A depth, which is small.
fn narrowed(depth: Option<u32>) -> Option<u8>
    requires { IsAtMost 6 depth }
    ensures { result ≡ depth }
{
    match depth {
        Some(depth) => Some(depth as u8),
        None => None,
    }
}

/// The question at a moment, with the periods that the words behind it state.
fn asked_with(
    alloc: Global,
    question: Question,
    words: &[String],
    moment: Moment,
) -> Result<Option<Asked>, AllocError>
    requires { IsAtMost 6 moment.depth }
    ensures { IfOk result (λ found. MatchOption found (HasNoTail question (map string_bytes words.now))
        (λ a. (a.at ≡ moment.at) × (a.depth ≡ moment.depth) × HasTail question (map string_bytes words.now) a)) }
{
    let Some(over) = over_in(alloc, words, most_period(&question))? else {
        return Ok(None);
    };
    if !over.rest.is_empty() {
        return Ok(None);
    }
    Ok(Some(Asked {
        question,
        periods: over.periods,
        at: moment.at,
        depth: narrowed(moment.depth),
    }))
}

/// What a first word with these matches asks for.
fn asked_by(
    alloc: Global,
    first: &str,
    matches: &ArgMatches<'_>,
) -> Result<Option<Asked>, AllocError>
    ensures { IfOk result (λ found. MatchOption found
        ((a : Asked) → ¬ TellsAsked (told_of first.now (rows_of (found_of matches.now))) a)
        (TellsAsked (told_of first.now (rows_of (found_of matches.now))))) }
{
    let Some(at) = number_found(matches, "at", MOST_TICK) else {
        return Ok(None);
    };
    let Some(depth) = number_found(matches, "depth", MOST_DEPTH) else {
        return Ok(None);
    };
    let words = words_found(alloc, matches)?;
    match question_in(alloc, first, &words) {
        Ok(Some(known)) => asked_with(alloc, known.question, known.rest, Moment { at, depth }),
        Ok(None) => Ok(None),
        Err(wanting) => Err(wanting),
    }
}

/// What matches ask for, or `None` where what was found is nothing that the program knows.
///
/// # Errors
/// Returns `AllocError` for want of memory.
pub fn asked_told(alloc: Global, matches: &ArgMatches<'_>) -> Result<Option<Asked>, AllocError>
    ensures { IfOk result (λ found. MatchOption found
        ((a : Asked) → ¬ MayTell (told (subcommand_rows_of matches.now)) a)
        (MayTell (told (subcommand_rows_of matches.now)))) }
{
    match matches.subcommand() {
        Some((first, found)) => asked_by(alloc, first, found),
        None => Ok(None),
    }
}
