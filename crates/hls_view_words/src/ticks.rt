// The tick that an option states.
ghost use Rattle.std.specs.Prelude.{◌≡◌, ◌≤◌, ◌∷◌, ◌++◌, ℕ, codes, decimal, map, string_bytes, IfSome, IsNone};
ghost use Rattle.hls_view_words.specs.Table.{HasTick};

use crate::heads::number_up_to;

/// The last tick that a word may state.
const LAST_TICK: u32 = 99_999;

/// The tick that one word after `tree` states.
fn stated_in(word: &str) -> Option<u32>
    ensures found { IfSome result (λ tick. (tick ≤ 99999) × (word.now ≡ codes "--at=" ++ decimal tick)) }
    ensures none { IsNone result → (tick : ℕ) → tick ≤ 99999 → word.now ≡ codes "--at=" ++ decimal tick → ⊥ }
{
    number_up_to(LAST_TICK, word.strip_prefix("--at=")?.as_bytes())
}

/// The tick that two words after `tree` state.
fn stated_by(option: &str, word: &str) -> Option<u32>
    ensures found { IfSome result (λ tick.
        (tick ≤ 99999) × (option.now ≡ codes "--at") × (word.now ≡ decimal tick)) }
    ensures none { IsNone result → (tick : ℕ) → tick ≤ 99999 → option.now ≡ codes "--at" → word.now ≡ decimal tick → ⊥ }
{
    if option == "--at" {
        number_up_to(LAST_TICK, word.as_bytes())
    } else {
        None
    }
}

/// The tick that some words after `tree` state.
pub fn tick_in(words: &[String]) -> Option<u32>
    ensures found { IfSome result (HasTick (map string_bytes words.now)) }
    ensures none { IsNone result → (tick : ℕ) → ¬ HasTick (map string_bytes words.now) tick }
{
    match words {
        [word] => stated_in(word.as_str()),
        [option, word] => stated_by(option.as_str(), word.as_str()),
        _ => None,
    }
}
