// Fractions, as a scenario may write them.
ghost use Rattle.std.specs.Prelude.{◌≡◌};
ghost use Rattle.hls_text.specs.Numbers.{number_of};
ghost use Rattle.hls_text.specs.Tokens.{tokens_of};
ghost use Rattle.hls_lang.specs.Words.{Gives, quotient, narrow_quotient, fraction_of};
ghost use Rattle.hls_lang.specs.Words.{fraction_at, rate_at};

use crate::Cause;
use crate::words::token;
use hls_frac::Frac;
use hls_text::cut;

/// The greatest numerator and the greatest denominator, as written.
const MOST_NUM: u64 = 10_000_000_000;

const MOST_DEN: u64 = 1_000_000;

fn quotient(num: u64, den: u64) -> Option<Frac>
    ensures { result ≡ quotient num den }
{
    Frac::make(num as u128, den as u128)
}

fn narrow_quotient(num: &[u8], den: &[u8]) -> Option<Frac>
    ensures { result ≡ narrow_quotient (number_of num.now) (number_of den.now) }
{
    match (hls_text::number(num), hls_text::number(den)) {
        (Some(num), Some(den)) if num <= MOST_NUM && den <= MOST_DEN => quotient(num, den),
        _ => None,
    }
}

/// The fraction that a token is: a number, or a number, `/` and a number other than 0.
#[tactic(auto, unfolding(crate::specs::Words::fraction_of))]
fn fraction_text(token: &[u8]) -> Option<Frac>
    ensures { result ≡ fraction_of token.now }
{
    match cut(token, b'/') {
        Some((num, den)) => narrow_quotient(num, den),
        None => narrow_quotient(token, b"1"),
    }
}

pub fn fraction(line: &[u8]) -> Result<(Frac, &[u8]), Cause>
    ensures { Gives (λ p. (p.0, tokens_of p.1.now)) result (fraction_at (tokens_of line.now)) }
{
    let (found, rest) = token(line)?;
    match fraction_text(found) {
        Some(f) => Ok((f, rest)),
        None => Err(Cause::Number),
    }
}

/// A fraction above 0 and at most 1.
pub fn rate(line: &[u8]) -> Result<(Frac, &[u8]), Cause>
    ensures { Gives (λ p. (p.0, tokens_of p.1.now)) result (rate_at (tokens_of line.now)) }
{
    let (f, rest) = fraction(line)?;
    if 1 <= f.num && f.num <= f.den {
        Ok((f, rest))
    } else {
        Err(Cause::Number)
    }
}
