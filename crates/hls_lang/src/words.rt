// The tokens of a line, from the left.
ghost use Rattle.std.specs.Prelude.{◌≡◌, ◌^◌, ◌<◌, ◌≤◌, codes};
ghost use Rattle.hls_text.specs.Numbers.{number_of};
ghost use Rattle.hls_text.specs.Tokens.{tokens_of};
ghost use Rattle.hls_lang.specs.Words.{Gives, token_at, no_more, word_at, name_at, in_range, number_at};
ghost use Rattle.hls_lang.specs.Words.{tick_at, pair_at};

use crate::Cause;
use hls_chron::Name;
use hls_text::next_token;

pub fn token(line: &[u8]) -> Result<(&[u8], &[u8]), Cause>
    ensures { Gives (λ p. (p.0.now, tokens_of p.1.now)) result (token_at (tokens_of line.now)) }
{
    match next_token(line) {
        Some(found) => Ok(found),
        None => Err(Cause::Short),
    }
}

pub fn end(line: &[u8]) -> Result<(), Cause>
    ensures { Gives (λ u. u) result (no_more (tokens_of line.now)) }
{
    match next_token(line) {
        Some(_) => Err(Cause::Extra),
        None => Ok(()),
    }
}

pub fn word<'a>(line: &'a [u8], wanted: &[u8]) -> Result<&'a [u8], Cause>
    ensures { Gives (λ r. tokens_of r.now) result (word_at wanted.now (tokens_of line.entry.now)) }
{
    let (found, rest) = token(line)?;
    if found == wanted {
        Ok(rest)
    } else {
        Err(Cause::Word)
    }
}

pub fn name(line: &[u8]) -> Result<(Name, &[u8]), Cause>
    ensures { Gives (λ p. (p.0, tokens_of p.1.now)) result (name_at (tokens_of line.now)) }
{
    let (found, rest) = token(line)?;
    match Name::read(found) {
        Some(name) => Ok((name, rest)),
        None => Err(Cause::Name),
    }
}

/// The number that a token is, where it is in the range.
fn ranged(token: &[u8], low: u32, high: u32) -> Option<u32>
    ensures { result ≡ in_range low high (number_of token.now) }
{
    match hls_text::number(token) {
        Some(n) if n >= low as u64 && n <= high as u64 => Some(n as u32),
        _ => None,
    }
}

pub fn number(line: &[u8], low: u32, high: u32) -> Result<(u32, &[u8]), Cause>
    ensures { Gives (λ p. (p.0, tokens_of p.1.now)) result (number_at low high (tokens_of line.now)) }
{
    let (found, rest) = token(line)?;
    match ranged(found, low, high) {
        Some(n) => Ok((n, rest)),
        None => Err(Cause::Number),
    }
}

pub fn tick(line: &[u8], horizon: u32, last: u32) -> Result<(u32, &[u8]), Cause>
    ensures { Gives (λ p. (p.0, tokens_of p.1.now)) result (tick_at horizon last (tokens_of line.now)) }
{
    let (found, rest) = token(line)?;
    match hls_text::number(found) {
        None => Err(Cause::Number),
        Some(n) => {
            if n < last as u64 {
                Err(Cause::Order)
            } else if n < horizon as u64 {
                Ok((n as u32, rest))
            } else {
                Err(Cause::Late)
            }
        }
    }
}

/// Two numbers, and what stands after them.
#[derive(Debug, Drop)]
pub struct Pair<'a> {
    pub x: u32,
    pub y: u32,
    pub rest: &'a [u8],
}

/// Two numbers from 1 to the most, of which the second is no less than the first.
#[tactic(auto, unfolding(crate::specs::Words::pair_at))]
pub fn number_pair(line: &[u8], most: u32) -> Result<Pair<'_>, Cause>
    ensures { Gives (λ p. (p.x, p.y, tokens_of p.rest.now)) result (pair_at most (tokens_of line.now)) }
{
    let (x, rest) = number(line, 1, most)?;
    let (y, rest) = number(rest, x, most)?;
    Ok(Pair { x, y, rest })
}
