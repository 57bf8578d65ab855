// Questions, up to their periods.
ghost use Rattle.std.specs.Prelude.{◌∷◌, codes, map, string_bytes, IfOk, MatchOption};
ghost use Rattle.hls_offer_words.specs.Table.{IsNotAsked};
ghost use Rattle.hls_offer_words.specs.Inside.Readings.{IsQuestionIn, IsPlaceIn, IsNoPlaceIn};

use crate::Question;
use crate::heads::{name_in, words_behind};
use crate::seats::{terms_in, wanted_in};
use hls_chron::Name;
use std::alloc::{AllocError, Global};

/// A question, and the words behind it.
#[derive(Drop)]
pub struct Known<'a> {
    pub question: Question,
    pub rest: &'a [String],
}

/// The one scheduler that is asked, where one is named, and the words behind it.
#[derive(Drop)]
struct Place<'a> {
    on: Option<Name>,
    rest: &'a [String],
}

/// The scheduler that the words name behind `on`, or that they name none.
fn place_in(words: &[String]) -> Option<Place<'_>>
    ensures { MatchOption result (IsNoPlaceIn (map string_bytes words.entry.now))
        (λ place. IsPlaceIn (map string_bytes words.entry.now) place.on (map string_bytes place.rest.now)) }
{
    let Some(behind) = words_behind(words, "on") else {
        return Some(Place {
            on: None,
            rest: words,
        });
    };
    match name_in(behind) {
        Some(named) => Some(Place {
            on: Some(named.name),
            rest: named.rest,
        }),
        None => None,
    }
}

/// What can be promised, of which the words behind `offer` ask.
fn offer_in<'a>(alloc: Global, words: &'a [String]) -> Result<Option<Known<'a>>, AllocError>
    ensures { IfOk result (λ found. MatchOption found
        (IsNotAsked (codes "offer" ∷ map string_bytes words.entry.now))
        (λ known. IsQuestionIn (codes "offer" ∷ map string_bytes words.entry.now) known.question
        (map string_bytes known.rest.now))) }
{
    let Some(thread) = name_in(words) else {
        return Ok(None);
    };
    let Some(seat) = words_behind(thread.rest, "on") else {
        return Ok(None);
    };
    let Some(sched) = name_in(seat) else {
        return Ok(None);
    };
    match terms_in(alloc, sched.rest)? {
        Some((terms, rest)) => Ok(Some(Known {
            question: Question::Offer {
                name: thread.name,
                on: sched.name,
                terms,
            },
            rest,
        })),
        None => Ok(None),
    }
}

/// By which terms a guarantee can be had, of which the words behind `need` ask.
fn need_in<'a>(alloc: Global, words: &'a [String]) -> Result<Option<Known<'a>>, AllocError>
    ensures { IfOk result (λ found. MatchOption found
        (IsNotAsked (codes "need" ∷ map string_bytes words.entry.now))
        (λ known. IsQuestionIn (codes "need" ∷ map string_bytes words.entry.now) known.question
        (map string_bytes known.rest.now))) }
{
    let Some(thread) = name_in(words) else {
        return Ok(None);
    };
    let Some(spelled) = words_behind(thread.rest, "as") else {
        return Ok(None);
    };
    let Some((wanted, last)) = wanted_in(alloc, spelled)? else {
        return Ok(None);
    };
    match place_in(last) {
        Some(place) => Ok(Some(Known {
            question: Question::Need {
                name: thread.name,
                wanted,
                on: place.on,
            },
            rest: place.rest,
        })),
        None => Ok(None),
    }
}

/// The question that a first word and the words behind it begin, and the words behind that.
///
/// # Errors
/// Returns `AllocError` for want of memory.
pub fn question_in<'a>(
    alloc: Global,
    first: &str,
    words: &'a [String],
) -> Result<Option<Known<'a>>, AllocError>
    ensures { IfOk result (λ found. MatchOption found (IsNotAsked (first.now ∷ map string_bytes words.entry.now))
        (λ known. IsQuestionIn (first.now ∷ map string_bytes words.entry.now) known.question
        (map string_bytes known.rest.now))) }
{
    match first {
        "offer" => offer_in(alloc, words),
        "need" => need_in(alloc, words),
        "spare" => Ok(Some(Known {
            question: Question::Spare,
            rest: words,
        })),
        _ => Ok(None),
    }
}
