// The first of some words.
ghost use Rattle.std.specs.Prelude.{◌≡◌, ◌∷◌, List, map, string_bytes, IfSome, IsNone};
ghost use Rattle.hls_text.specs.Lines.{Text};
ghost use Rattle.hls_chron.specs.Name.{IsName};

use hls_chron::Name;

/// A name, and the words behind it.
#[derive(Drop)]
pub struct Named<'a> {
    pub name: Name,
    pub rest: &'a [String],
}

/// The words behind a first one.
pub fn words_behind<'a>(words: &'a [String], first: &str) -> Option<&'a [String]>
    ensures found { IfSome result (λ rest. map string_bytes words.entry.now ≡ first.now ∷ map string_bytes rest.now) }
    ensures none { IsNone result → (rest : List Text) → map string_bytes words.entry.now ≡ first.now ∷ rest → ⊥ }
{
    let (word, rest) = words.split_first()?;
    if word.as_str() != first {
        return None;
    }
    Some(rest)
}

/// The name that the first word is, and the words behind it.
pub fn name_in(words: &[String]) -> Option<Named<'_>>
    ensures named { IfSome result (λ p. IsName p.name) }
    ensures found { IfSome result (λ p. map string_bytes words.entry.now ≡ p.name ∷ map string_bytes p.rest.now) }
    ensures none { IsNone result → (name : Text) (rest : List Text) → IsName name →
        map string_bytes words.entry.now ≡ name ∷ rest → ⊥ }
{
    let (word, rest) = words.split_first()?;
    match Name::read(word.as_bytes()) {
        Some(name) => Some(Named { name, rest }),
        None => None,
    }
}
