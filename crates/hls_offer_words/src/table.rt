// The table of words: how the words of a question stand.
ghost use Rattle.std.specs.Prelude.{◌≡◌, ◌≢◌, ◌∷◌, ℕ, List, Option, map, string_bytes, true, IfSome, IsNone};
ghost use Rattle.hls_text.specs.Lines.{Text};
ghost use Rattle.hls_offer_words.specs.Table.{IsAtMost, IsNotAsked, moment_words};
ghost use Rattle.hls_offer_words.specs.Inside.Shapes.{is_plain as is_plain_word, HasShape, IsAsking, IsBehindPlain};
ghost use Rattle.hls_offer_words.specs.Inside.Shapes.{BeginsWith, IsBehindOption, MayOption};

use crate::heads::words_behind;

/// Whether a word is no option.
fn is_plain(word: &str) -> bool
    ensures { result ≡ is_plain_word word.now }
{
    match word.as_bytes() {
        [letter, ..] => *letter != b'-',
        [] => true,
    }
}

/// Whether a word asks a question.
fn is_asking(word: &str) -> bool
    ensures yes { result ≡ true → IsAsking word.now }
    ensures no { result ≢ true → ¬ IsAsking word.now }
{
    word == "offer" || word == "need" || word == "spare"
}

/// The words from the first option on.
fn options_in(words: &[String]) -> &[String]
    ensures { IsBehindPlain (map string_bytes words.entry.now) (map string_bytes result.now) }
{
    let mut options = words;
    while let Some((word, rest)) = options.split_first() {
        if !is_plain(word.as_str()) {
            break;
        }
        options = rest;
    }
    options
}

/// The words behind an option and its value, where these words begin so.
fn behind_option<'a>(words: &'a [String], option: &str) -> Option<&'a [String]>
    ensures found { IfSome result (λ rest. BeginsWith option.now (map string_bytes words.entry.now)
        (map string_bytes rest.now)) }
    ensures none { IsNone result → (rest : List Text) →
        ¬ BeginsWith option.now (map string_bytes words.entry.now) rest }
{
    let (value, rest) = words_behind(words, option)?.split_first()?;
    if !is_plain(value.as_str()) {
        return None;
    }
    Some(rest)
}

/// The words behind an option and its value, or all of them where they do not begin so.
fn after_option<'a>(words: &'a [String], option: &str) -> &'a [String]
    ensures { IsBehindOption option.now (map string_bytes words.entry.now) (map string_bytes result.now) }
{
    match behind_option(words, option) {
        Some(rest) => rest,
        None => words,
    }
}

/// Whether words may state a tick, and behind that a depth.
fn are_options(words: &[String]) -> bool
    ensures yes { result ≡ true → MayOption (map string_bytes words.now) }
    ensures no { result ≢ true → (at depth : Option ℕ) → IsAtMost 99999 at → IsAtMost 6 depth →
        map string_bytes words.now ≡ moment_words at depth → ⊥ }
{
    after_option(after_option(words, "--at"), "--depth").is_empty()
}

/// Whether a first word and those behind it stand as those of a question.
fn may_ask(first: &str, behind: &[String]) -> bool
    ensures yes { result ≡ true → HasShape (first.now ∷ map string_bytes behind.now) }
    ensures no { result ≢ true → IsNotAsked (first.now ∷ map string_bytes behind.now) }
{
    if !is_asking(first) {
        return false;
    }
    are_options(options_in(behind))
}

/// Whether words stand as those of a question. What they ask may still be nothing that the program knows.
#[tactic(auto, using(crate::proofs::Telling::empty_not))]
pub fn has_shape(words: &[String]) -> bool
    ensures yes { result ≡ true → HasShape (map string_bytes words.now) }
    ensures no { result ≢ true → IsNotAsked (map string_bytes words.now) }
{
    match words.split_first() {
        Some((first, behind)) => may_ask(first.as_str(), behind),
        None => false,
    }
}
