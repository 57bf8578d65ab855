// Words that can stand in a line of a scenario.
ghost use Rattle.std.specs.Prelude.{◌≡◌, ◌++◌, map, string_bytes, OnOk};
ghost use Rattle.std.specs.List.{list_all};
ghost use Rattle.hls_scenario.specs.Forms.{spaced};
ghost use Rattle.hls_offer_words.specs.Inside.Spellings.{is_sign, is_word, plain};

use hls_text::put;
use std::alloc::AllocError;

/// Whether a byte may stand in a word of a scenario.
fn is_sign(byte: u8) -> bool
    ensures { result ≡ is_sign byte }
{
    36 <= byte && byte <= 126
}

fn are_signs(text: &[u8]) -> bool
    ensures { result ≡ list_all is_sign text.now }
{
    text.iter().all(|byte| is_sign(*byte))
}

/// Whether a text can be a word of a line.
fn is_word(text: &[u8]) -> bool
    ensures { result ≡ is_word text.now }
{
    match text {
        [] => false,
        [first, rest @ ..] => is_sign(*first) && are_signs(rest),
    }
}

/// Whether each of these can be a word of a line.
pub fn are_words(words: &[String]) -> bool
    ensures { result ≡ list_all (λ word. is_word (string_bytes word)) words.now }
{
    words.iter().all(|word| is_word(word.as_bytes()))
}

/// Appends words, each behind a space.
///
/// # Errors
/// Returns `AllocError` for want of memory.
pub fn put_words(out: &mut Vec<u8>, words: &[String]) -> Result<(), AllocError>
    ensures { OnOk result (out.new.items ≡ out.old.items ++ spaced (plain (map string_bytes words.now))) }
{
    for word in words {
        put(out, b" ")?;
        put(out, word.as_bytes())?;
    }
    Ok(())
}
