// The name that an option states.
ghost use Rattle.std.specs.Prelude.{◌≡◌, codes, map, string_bytes, IfSome, IsNone, ◌∷◌, ◌++◌};
ghost use Rattle.hls_text.specs.Lines.{Text};
ghost use Rattle.hls_chron.specs.Name.{IsName};
ghost use Rattle.hls_view_words.specs.Table.{NamesOne};

use hls_chron::Name;

/// The name that one word after `jobs` states.
fn stated_in(word: &str) -> Option<Name>
    ensures found { IfSome result (λ name. IsName name × (word.now ≡ codes "--of=" ++ name)) }
    ensures none { IsNone result → (name : Text) → IsName name → word.now ≡ codes "--of=" ++ name → ⊥ }
{
    Name::read(word.strip_prefix("--of=")?.as_bytes())
}

/// The name that two words after `jobs` state.
fn stated_by(option: &str, word: &str) -> Option<Name>
    ensures found { IfSome result (λ name. IsName name × (option.now ≡ codes "--of") × (word.now ≡ name)) }
    ensures none { IsNone result → (name : Text) → IsName name → option.now ≡ codes "--of" → word.now ≡ name → ⊥ }
{
    if option == "--of" {
        Name::read(word.as_bytes())
    } else {
        None
    }
}

/// The name that some words after `jobs` state.
pub fn name_in(words: &[String]) -> Option<Name>
    ensures found { IfSome result (NamesOne (map string_bytes words.now)) }
    ensures none { IsNone result → (name : Text) → ¬ NamesOne (map string_bytes words.now) name }
{
    match words {
        [word] => stated_in(word.as_str()),
        [option, word] => stated_by(option.as_str(), word.as_str()),
        _ => None,
    }
}
