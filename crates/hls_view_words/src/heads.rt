// Options that state numbers at the head of words.
ghost use Rattle.std.specs.Prelude.{◌≡◌, ◌≤◌, ◌∷◌, ◌++◌, ℕ, List, codes, decimal, map, string_bytes};
ghost use Rattle.std.specs.Prelude.{IfSome, IsNone};
ghost use Rattle.hls_text.specs.Lines.{Text};
ghost use Rattle.hls_view_words.specs.Table.{Heads};

use hls_text::decimal_number;

/// The number that an option states, and the words behind it.
#[derive(Clone, Copy)]
pub struct Head<'a> {
    pub number: u32,
    pub rest: &'a [String],
}

/// The number up to a greatest one that a text spells.
pub fn number_up_to(most: u32, text: &[u8]) -> Option<u32>
    ensures found { IfSome result (λ n. (n ≤ most) × (text.now ≡ decimal n)) }
    ensures none { IsNone result → (n : ℕ) → n ≤ most → text.now ≡ decimal n → ⊥ }
{
    match decimal_number(text) {
        Some(n) if n <= u128::from(most) => Some(n as u32),
        _ => None,
    }
}

/// The number that a word with an option states.
fn joined(option: &str, most: u32, word: &str) -> Option<u32>
    ensures found { IfSome result (λ n. (n ≤ most) × (word.now ≡ option.now ++ (codes "=" ++ decimal n))) }
    ensures none { IsNone result → (n : ℕ) → n ≤ most
        → word.now ≡ option.now ++ (codes "=" ++ decimal n) → ⊥ }
{
    let stated = word.strip_prefix(option)?.strip_prefix("=")?;
    number_up_to(most, stated.as_bytes())
}

/// The number that a word behind an option states.
fn apart(option: &str, most: u32, first: &str, second: &str) -> Option<u32>
    ensures found { IfSome result (λ n.
        (n ≤ most) × (first.now ≡ option.now) × (second.now ≡ decimal n)) }
    ensures none { IsNone result → (n : ℕ) → n ≤ most
        → first.now ≡ option.now → second.now ≡ decimal n → ⊥ }
{
    if first == option {
        number_up_to(most, second.as_bytes())
    } else {
        None
    }
}

/// The number that an option in a word of its own states at the head of some words.
fn head_apart<'a>(option: &str, most: u32, words: &'a [String]) -> Option<Head<'a>>
    ensures found { IfSome result (λ h. (h.number ≤ most)
        × (map string_bytes words.entry.now ≡ option.now ∷ decimal h.number ∷ map string_bytes h.rest.now)) }
    ensures none { IsNone result → (n : ℕ) (rest : List Text) → n ≤ most
        → map string_bytes words.entry.now ≡ option.now ∷ decimal n ∷ rest → ⊥ }
{
    match words {
        [first, second, rest @ ..] => {
            let number = apart(option, most, first.as_str(), second.as_str())?;
            Some(Head { number, rest })
        }
        _ => None,
    }
}

/// The number that one word with an option states at the head of some words.
fn head_joined<'a>(option: &str, most: u32, words: &'a [String]) -> Option<Head<'a>>
    ensures found { IfSome result (λ h. (h.number ≤ most) × (map string_bytes words.entry.now
        ≡ (option.now ++ (codes "=" ++ decimal h.number)) ∷ map string_bytes h.rest.now)) }
    ensures none { IsNone result → (n : ℕ) (rest : List Text) → n ≤ most
        → map string_bytes words.entry.now ≡ (option.now ++ (codes "=" ++ decimal n)) ∷ rest → ⊥ }
{
    match words {
        [first, rest @ ..] => {
            let number = joined(option, most, first.as_str())?;
            Some(Head { number, rest })
        }
        _ => None,
    }
}

/// The number up to a greatest one that an option states at the head of some words.
pub fn head_of<'a>(option: &str, most: u32, words: &'a [String]) -> Option<Head<'a>>
    ensures found { IfSome result (λ h. (h.number ≤ most)
        × Heads option.now (map string_bytes words.entry.now) h.number (map string_bytes h.rest.now)) }
    ensures none { IsNone result → (n : ℕ) (rest : List Text) → n ≤ most
        → ¬ Heads option.now (map string_bytes words.entry.now) n rest }
{
    match head_apart(option, most, words) {
        Some(head) => Some(head),
        None => head_joined(option, most, words),
    }
}
