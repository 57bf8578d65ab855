// The periods that words state.
ghost use Rattle.std.specs.Prelude.{◌≤◌, ◌∷◌, codes, map, string_bytes, IfOk, IsFalse, IsTrue, MatchOption, length};
ghost use Rattle.hls_offer_words.specs.Inside.Readings.{AreFirst, IsOver, IsNoOver};

use crate::numbers::first_number;
use hls_chron::List;
use std::alloc::{AllocError, Global};

/// How many periods may be stated.
const MOST_PERIODS: usize = 64;

/// Numbers that rise, and the words behind them.
#[derive(Drop)]
struct Taken<'a> {
    numbers: Vec<u32>,
    rest: &'a [String],
}

/// The periods that are stated, and the words behind them.
#[derive(Drop)]
pub struct Over<'a> {
    pub periods: Option<List<u32>>,
    pub rest: &'a [String],
}

/// The numbers from 1 up to the most that rise strictly, as many as stand in front.
fn rising<'a>(alloc: Global, words: &'a [String], most: u32) -> Result<Taken<'a>, AllocError>
    requires { most ≤ 20000 }
    ensures { IfOk result (λ r. AreFirst 1 most (map string_bytes words.entry.now) r.numbers.items
        (map string_bytes r.rest.now)) }
{
    let mut numbers = Vec::new(alloc);
    let mut least = 1;
    let mut rest = words;
    while let Some((number, behind)) = first_number(rest, least, most) {
        numbers.push(number)?;
        least = number + 1;
        rest = behind;
    }
    Ok(Taken { numbers, rest })
}

/// Whether so many periods may be stated.
fn may_be_stated(periods: &[u32]) -> bool
    ensures yes { IsTrue result → (1 ≤ length periods.now) × (length periods.now ≤ 64) }
    ensures no { IsFalse result → 1 ≤ length periods.now → length periods.now ≤ 64 → ⊥ }
{
    1 <= periods.len() && periods.len() <= MOST_PERIODS
}

/// The periods behind the word `over`, of at most so many ticks, and the words behind them.
fn stated<'a>(alloc: Global, words: &'a [String], most: u32) -> Result<Option<Over<'a>>, AllocError>
    requires { most ≤ 20000 }
    ensures { IfOk result (λ found. MatchOption found
        (IsNoOver most (codes "over" ∷ map string_bytes words.entry.now))
        (λ over. IsOver most (codes "over" ∷ map string_bytes words.entry.now) over.periods
        (map string_bytes over.rest.now))) }
{
    let Taken { numbers, rest } = rising(alloc, words, most)?;
    if !may_be_stated(&numbers) {
        return Ok(None);
    }
    Ok(Some(Over {
        periods: Some(List::of(numbers)),
        rest,
    }))
}

/// The periods that the words state, of at most so many ticks, or that they state none, and the words behind them.
///
/// # Errors
/// Returns `AllocError` for want of memory.
pub fn over_in<'a>(
    alloc: Global,
    words: &'a [String],
    most: u32,
) -> Result<Option<Over<'a>>, AllocError>
    requires { most ≤ 20000 }
    ensures { IfOk result (λ found. MatchOption found (IsNoOver most (map string_bytes words.entry.now))
        (λ over. IsOver most (map string_bytes words.entry.now) over.periods (map string_bytes over.rest.now))) }
{
    match words.split_first() {
        Some((first, rest)) if first.as_str() == "over" => stated(alloc, rest, most),
        _ => Ok(Some(Over {
            periods: None,
            rest: words,
        })),
    }
}
