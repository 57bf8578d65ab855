// Reading spans.
ghost use Rattle.std.specs.Prelude.{◌≡◌, ◌^◌, ◌<◌, ◌++◌, ◌∷◌, ℕ, decimal, IfSome, IsSomeAnd};
ghost use Rattle.hls_text.specs.Lines.{Text};
ghost use Rattle.hls_text.specs.Numbers.{is_digit};
ghost use Rattle.hls_text.specs.Options.{Gives};
ghost use Rattle.hls_report_text.specs.ReportText.{two_words, span_text};
ghost use Rattle.hls_report.specs.Inside.Digits.{may_begin, digits_to};

use hls_text::after;

fn is_digit_byte(byte: u8) -> bool
    ensures { result ≡ is_digit byte }
{
    byte.is_ascii_digit()
}

/// Whether a number without a leading zero may begin a text, which such a byte ends.
fn may_begin(text: &[u8], end: u8) -> bool
    ensures { result ≡ may_begin end text.now }
{
    match text {
        [first, second, ..] => is_digit_byte(*first) && (*first != b'0' || *second == end),
        _ => false,
    }
}

/// The number that the digits before the first such byte stand for, and what stands behind that byte.
fn digits_before(text: &[u8], end: u8) -> Option<(u64, &[u8])>
    ensures { Gives (λ p. (p.0, p.1.now)) result (digits_to end 0 text.now) }
{
    let mut value = 0u64;
    let mut rest = text;
    while let Some((&byte, more)) = rest.split_first() {
        if byte == end {
            return Some((value, more));
        }
        if !is_digit_byte(byte) || value >= 4_294_967_296 {
            return None;
        }
        value = 10 * value + u64::from(byte - b'0');
        rest = more;
    }
    None
}

/// The number of 32 bits before the first such byte, and what stands behind that byte.
fn count_before(text: &[u8], end: u8) -> Option<(u32, &[u8])>
    requires { end < 48 }
    ensures found { IfSome result (λ p. text.now ≡ decimal p.0 ++ (end ∷ p.1.now)) }
    ensures exact { (n : ℕ) (rest : Text) → n < 2 ^ 32 → text.now ≡ decimal n ++ (end ∷ rest) →
        IsSomeAnd result (λ p. (p.0 ≡ n) × (p.1.now ≡ rest)) }
{
    if !may_begin(text, end) {
        return None;
    }
    match digits_before(text, end) {
        Some((n, rest)) if n < 4_294_967_296 => Some((n as u32, rest)),
        _ => None,
    }
}

/// A span, and what stands behind it and a space.
pub fn span_before(text: &[u8]) -> Option<(u32, u32, &[u8])>
    ensures found { IfSome result (λ p. text.now ≡ two_words (span_text p.0 p.1) p.2.now) }
    ensures exact { (from to : ℕ) (rest : Text) → from < 2 ^ 32 → to < 2 ^ 32 →
        text.now ≡ two_words (span_text from to) rest →
        IsSomeAnd result (λ p. (p.0 ≡ from) × (p.1 ≡ to) × (p.2.now ≡ rest)) }
{
    let (from, rest) = count_before(text, b'.')?;
    let rest = after(rest, b".")?;
    let (to, rest) = count_before(rest, b' ')?;
    Some((from, to, rest))
}
