// The table of words: how the words of each job stand.
ghost use Rattle.std.specs.Prelude.{◌≡◌, ◌≢◌, ◌≤◌, ◌∷◌, ◌++◌, codes, decimal, map, string_bytes, true, IfSome};
ghost use Rattle.std.specs.Prelude.{IsNone, List, ℕ};
ghost use Rattle.hls_top_words.specs.Table.{HasDepth, HasNumber, IsNoJob};
ghost use Rattle.hls_top_words.specs.Inside.Shapes.{begins_with_digit as has_digit, Gives, HasShape, MayState};

/// Whether a word begins with a digit, so that it is no option.
fn begins_with_digit(word: &str) -> bool
    ensures { result ≡ has_digit word.now }
{
    match word.as_bytes() {
        [letter, ..] => letter.is_ascii_digit(),
        [] => false,
    }
}

/// Whether two words after `run` may state a depth.
fn may_stand_apart(option: &str, word: &str) -> bool
    ensures yes { result ≡ true → (option.now ≡ codes "--depth") × (has_digit word.now ≡ true) }
    ensures no { result ≢ true → (depth : ℕ) → depth ≤ 6 → option.now ≡ codes "--depth" →
        word.now ≡ decimal depth → ⊥ }
{
    option == "--depth" && begins_with_digit(word)
}

/// What a word after `run` states for a depth.
fn stated_in(word: &str) -> Option<&str>
    ensures found { IfSome result (λ value. word.now ≡ codes "--depth=" ++ value.now) }
    ensures none { IsNone result → (value : List ℕ) → word.now ≢ codes "--depth=" ++ value }
{
    word.strip_prefix("--depth=")
}

/// Whether the words after `run` may leave the depth open, or state it.
fn may_state(options: &[String]) -> bool
    ensures yes { result ≡ true → MayState (map string_bytes options.now) }
    ensures no { result ≢ true → (depth : ℕ) → ¬ HasDepth (map string_bytes options.now) depth }
{
    match options {
        [] => true,
        [word] => stated_in(word.as_str()).is_some(),
        [option, word] => may_stand_apart(option.as_str(), word.as_str()),
        _ => false,
    }
}

/// Whether the words after `gen` or `trial` may be a number.
fn may_give(options: &[String]) -> bool
    ensures yes { result ≡ true → Gives (map string_bytes options.now) }
    ensures no { result ≢ true → (number : ℕ) → ¬ HasNumber (map string_bytes options.now) number }
{
    match options {
        [word] => begins_with_digit(word.as_str()),
        _ => false,
    }
}

/// Whether a first word and those behind it stand as those of a job.
fn may_ask(first: &str, options: &[String]) -> bool
    ensures yes { result ≡ true → HasShape (first.now ∷ map string_bytes options.now) }
    ensures no { result ≢ true → IsNoJob (first.now ∷ map string_bytes options.now) }
{
    match first {
        "run" => may_state(options),
        "check" => options.is_empty(),
        "gen" | "trial" => may_give(options),
        _ => false,
    }
}

/// Whether words stand as those of a job. What they state may still be no depth, or no number of 32 bits.
pub fn has_shape(words: &[String]) -> bool
    ensures yes { result ≡ true → HasShape (map string_bytes words.now) }
    ensures no { result ≢ true → IsNoJob (map string_bytes words.now) }
{
    match words.split_first() {
        Some((first, options)) => may_ask(first.as_str(), options),
        None => false,
    }
}
