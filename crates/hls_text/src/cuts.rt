// Texts that are cut at a byte, and texts behind words.
ghost use Rattle.std.specs.Prelude.{◌≡◌, ◌≤◌, ◌==◌, ◌++◌, ◌∷◌, ℕ, List, false, position};
ghost use Rattle.std.specs.Prelude.{IfSome, IsSomeAnd, MatchOption};
ghost use Rattle.std.specs.List.{list_any};
ghost use Rattle.hls_text.specs.Cuts.{cut_at, after_words};
ghost use Rattle.hls_text.specs.Options.{Gives};

/// The place of the first such byte.
pub fn place_of(text: &[u8], byte: u8) -> Option<usize>
    ensures { result ≡ position (λ b. b == byte) text.now }
{
    text.iter().position(|b| *b == byte)
}

/// What stands before and after the first such byte, or `None` where there is none.
pub fn cut(text: &[u8], byte: u8) -> Option<(&[u8], &[u8])>
    ensures read { Gives (λ p. (p.0.now, p.1.now)) result (cut_at byte text.now) }
    ensures found { IfSome result (λ p. text.now ≡ p.0.now ++ (byte ∷ p.1.now)) }
    ensures lacks { MatchOption result (list_any (λ b. b == byte) text.now ≡ false)
        (λ p. list_any (λ b. b == byte) p.0.now ≡ false) }
    ensures first { (front rest : List ℕ) → text.now ≡ front ++ (byte ∷ rest) →
        list_any (λ b. b == byte) front ≡ false →
        IsSomeAnd result (λ p. (p.0.now ≡ front) × (p.1.now ≡ rest)) }
{
    match place_of(text, byte) {
        Some(place) => Some((&text[..place], &text[place + 1..])),
        None => None,
    }
}

/// What stands behind these words, where the text begins with them.
pub fn after<'a>(text: &'a [u8], words: &[u8]) -> Option<&'a [u8]>
    ensures read { Gives (λ rest. rest.now) result (after_words words.now text.entry.now) }
    ensures found { IfSome result (λ rest. text.entry.now ≡ words.now ++ rest.now) }
{
    text.strip_prefix(words)
}
