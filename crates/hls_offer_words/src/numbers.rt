// The numbers that words spell.
ghost use Rattle.std.specs.Prelude.{◌≡◌, ◌≤◌, ◌∷◌, ℕ, List, decimal, map, string_bytes, IfSome, IsNone, Some};
ghost use Rattle.hls_text.specs.Lines.{Text};

use hls_text::decimal_number;

/// The number of at most so much that a word spells.
pub fn number_to(word: &str, most: u32) -> Option<u32>
    ensures found { IfSome result (λ n. (n ≤ most) × (word.now ≡ decimal n)) }
    ensures exact { (n : ℕ) → n ≤ most → word.now ≡ decimal n → result ≡ Some n }
    ensures none { IsNone result → (n : ℕ) → n ≤ most → word.now ≡ decimal n → ⊥ }
{
    match decimal_number(word.as_bytes()) {
        Some(n) if n <= u128::from(most) => Some(n as u32),
        _ => None,
    }
}

/// The number from one up to another that the first word spells, and the words behind it.
pub fn first_number(words: &[String], least: u32, most: u32) -> Option<(u32, &[String])>
    ensures found { IfSome result (λ p. (least ≤ p.0) × (p.0 ≤ most) ×
        (map string_bytes words.now ≡ decimal p.0 ∷ map string_bytes p.1.now)) }
    ensures none { IsNone result → (n : ℕ) (more : List Text) → least ≤ n → n ≤ most →
        map string_bytes words.now ≡ decimal n ∷ more → ⊥ }
{
    let (first, rest) = words.split_first()?;
    let number = number_to(first.as_str(), most)?;
    if number < least {
        return None;
    }
    Some((number, rest))
}
