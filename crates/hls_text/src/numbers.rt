// The numbers that tokens spell.
ghost use Rattle.std.specs.Prelude.{◌≡◌, min, option_map, fold};
ghost use Rattle.hls_text.specs.Numbers.{is_digit, are_digits, is_number, number_of, last_number};
ghost use Rattle.hls_text.specs.Numbers.{capped_step};

/// The number that a token is, without a leading zero. One that passes the last number of 64 bits is
/// told as that.
pub fn number(token: &[u8]) -> Option<u64>
    ensures { result ≡ option_map (λ n. min n last_number) (number_of token.now) }
{
    if is_number_text(token) {
        Some(capped_value(token))
    } else {
        None
    }
}

fn is_digit_byte(b: u8) -> bool
    ensures { result ≡ is_digit b }
{
    b.is_ascii_digit()
}

fn are_digit_bytes(token: &[u8]) -> bool
    ensures { result ≡ are_digits token.now }
{
    token.iter().all(|b| is_digit_byte(*b))
}

fn is_number_text(token: &[u8]) -> bool
    ensures { result ≡ is_number token.now }
{
    match token {
        [] => false,
        [digit] => is_digit_byte(*digit),
        [first, ..] => *first != b'0' && are_digit_bytes(token),
    }
}

fn capped_value(token: &[u8]) -> u64
    ensures { result ≡ fold capped_step 0 token.now }
{
    token.iter().fold(0u64, |value, digit| {
        value
            .saturating_mul(10)
            .saturating_add((*digit).saturating_sub(b'0') as u64)
    })
}
