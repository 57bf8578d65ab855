// The numbers that texts spell in decimal.
ghost use Rattle.std.specs.Prelude.{◌≡◌, ℕ, ◌^◌, ◌<◌, ◌↔◌, decimal, Some, IfSome, IsTrue};
ghost use Rattle.hls_text.specs.Decimals.{number_below};

use itoa::{Buffer, Integer};

/// The number that a text spells, without a leading zero.
pub fn decimal_number(text: &[u8]) -> Option<u128>
    ensures read { result ≡ number_below (2 ^ 128) text.now }
    ensures found { IfSome result (λ n. text.now ≡ decimal n) }
    ensures exact { (n : ℕ) → n < 2 ^ 128 → text.now ≡ decimal n → result ≡ Some n }
{
    match parsed(text) {
        Some(n) if spells(text, n) => Some(n),
        _ => None,
    }
}

/// The number that std reads, also where zeros or a sign lead.
fn parsed(text: &[u8]) -> Option<u128>
    ensures fits { IfSome result (λ n. n < 2 ^ 128) }
    ensures exact { (n : ℕ) → n < 2 ^ 128 → text.now ≡ decimal n → result ≡ Some n }
{
    match str::from_utf8(text) {
        Ok(digits) => digits.parse().ok(),
        Err(_) => None,
    }
}

fn spells(text: &[u8], n: u128) -> bool
    ensures { IsTrue result ↔ (text.now ≡ decimal n) }
{
    let mut buffer = Buffer::new();
    text == buffer.format(n).as_bytes()
}
