// The words at the front of a text.
ghost use Rattle.std.specs.Prelude.{◌≡◌, ◌≤◌, ◌++◌, [], ◌∷◌, codes, decimal, IfSome};
ghost use Rattle.hls_derive.specs.Derivation.{PortFits};
ghost use Rattle.hls_derive.specs.DerivationText.{rule_text, scheduler_text};
ghost use Rattle.hls_derive.specs.Inside.Reading.{place_of_space, first_byte, rule_of, rule_of_digit_at, rule_at};
ghost use Rattle.hls_text.specs.Options.{Gives};
ghost use Rattle.hls_derive.specs.Inside.Reading.{port_of, port_at, scheduler_at};

use hls_chron::Kind;
use hls_guarantee::RuleName;
use hls_text::after;

/// Where the space stands before which there are so many, or where the text ends.
pub fn space(text: &[u8], before: usize) -> usize
    ensures { result ≡ place_of_space before text.now }
{
    let mut left = before;
    for (at, byte) in text.iter().enumerate() {
        if *byte == b' ' {
            if left == 0 {
                return at;
            }
            left -= 1;
        }
    }
    text.len()
}

fn first(text: &[u8]) -> Option<(u8, &[u8])>
    ensures read { Gives (λ p. (p.0, p.1.now)) result (first_byte text.now) }
    ensures found { IfSome result (λ p. text.now ≡ p.0 ∷ p.1.now) }
{
    let (byte, rest) = text.split_first()?;
    Some((*byte, rest))
}

fn rule_of_digit(digit: u8) -> Option<RuleName>
    ensures read { result ≡ rule_of digit }
    ensures found { IfSome result (λ rule. rule_text rule ≡ 82 ∷ digit ∷ []) }
{
    match digit {
        b'1' => Some(RuleName::R1),
        b'2' => Some(RuleName::R2),
        b'3' => Some(RuleName::R3),
        b'4' => Some(RuleName::R4),
        b'5' => Some(RuleName::R5),
        b'6' => Some(RuleName::R6),
        b'7' => Some(RuleName::R7),
        b'8' => Some(RuleName::R8),
        b'9' => Some(RuleName::R9),
        _ => None,
    }
}

/// The rule between two spaces at the front of the text, and what stands behind it.
#[tactic(auto, unfolding(crate::specs::Inside::Reading::rule_at))]
pub fn rule(text: &[u8]) -> Option<(RuleName, &[u8])>
    ensures read { Gives (λ p. (p.0, p.1.now)) result (rule_at text.now) }
    ensures found { IfSome result (λ p. text.now ≡ codes " " ++ rule_text p.0 ++ codes " " ++ p.1.now) }
{
    if let Some(rest) = after(text, b" R10 ") {
        return Some((RuleName::R10, rest));
    }
    if let Some(rest) = after(text, b" R11 ") {
        return Some((RuleName::R11, rest));
    }
    rule_by_digit(text)
}

/// The rule of one digit between two spaces at the front of the text, and what stands behind it.
fn rule_by_digit(text: &[u8]) -> Option<(RuleName, &[u8])>
    ensures read { Gives (λ p. (p.0, p.1.now)) result (rule_of_digit_at text.now) }
    ensures found { IfSome result (λ p. text.now ≡ codes " " ++ rule_text p.0 ++ codes " " ++ p.1.now) }
{
    let rest = after(text, b" R")?;
    let (digit, rest) = first(rest)?;
    let rule = rule_of_digit(digit)?;
    let rest = after(rest, b" ")?;
    Some((rule, rest))
}

fn port_of_digit(digit: u8) -> Option<u8>
    ensures read { result ≡ port_of digit }
    ensures found { IfSome result (λ port. (port ≤ 3) × (decimal port ≡ digit ∷ [])) }
{
    if b'0' <= digit && digit <= b'3' {
        Some(digit - b'0')
    } else {
        None
    }
}

fn port(text: &[u8]) -> Option<(Kind, u8, &[u8])>
    ensures read { Gives (λ p. (p.0, p.1, p.2.now)) result (port_at text.now) }
    ensures found { IfSome result (λ p. PortFits p.0 p.1 ×
        (codes " JOIN " ++ text.now ≡ codes " " ++ scheduler_text p.0 p.1 ++ codes " " ++ p.2.now)) }
{
    let (digit, rest) = first(text)?;
    let port = port_of_digit(digit)?;
    let rest = after(rest, b" ")?;
    Some((Kind::Join, port, rest))
}

/// The kind and the port between two spaces at the front of the text, and what stands behind them.
#[tactic(auto, unfolding(crate::specs::Inside::Reading::scheduler_at))]
pub fn scheduler(text: &[u8]) -> Option<(Kind, u8, &[u8])>
    ensures read { Gives (λ p. (p.0, p.1, p.2.now)) result (scheduler_at text.now) }
    ensures found { IfSome result (λ p. PortFits p.0 p.1 ×
        (text.now ≡ codes " " ++ scheduler_text p.0 p.1 ++ codes " " ++ p.2.now)) }
{
    if let Some(rest) = after(text, b" CPU ") {
        return Some((Kind::Cpu, 0, rest));
    }
    if let Some(rest) = after(text, b" FP ") {
        return Some((Kind::Fp, 0, rest));
    }
    if let Some(rest) = after(text, b" EDF ") {
        return Some((Kind::Edf, 0, rest));
    }
    if let Some(rest) = after(text, b" SFQ ") {
        return Some((Kind::Sfq, 0, rest));
    }
    if let Some(rest) = after(text, b" RR ") {
        return Some((Kind::Rr, 0, rest));
    }
    if let Some(rest) = after(text, b" WHEEL ") {
        return Some((Kind::Wheel, 0, rest));
    }
    port(after(text, b" JOIN ")?)
}
