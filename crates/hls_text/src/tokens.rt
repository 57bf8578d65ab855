// Tokens of a line, one after the other.
ghost use Rattle.std.specs.Prelude.{◌≡◌, ◌∷◌, [], ◌<◌, ◌≤◌, ℕ, MatchOption, length, slice_index, true, false};
ghost use Rattle.hls_text.specs.Tokens.{tokens_of, is_blank};

/// The first token of a line, and what stands after it. `None` where the line is blank.
pub fn next_token(line: &[u8]) -> Option<(&[u8], &[u8])>
    ensures { MatchOption result (tokens_of line.now ≡ [])
        (λ p. tokens_of line.now ≡ p.0.now ∷ tokens_of p.1.now) }
{
    let (_, rest) = line.split_at(blank_len(line));
    if rest.is_empty() {
        return None;
    }
    Some(rest.split_at(token_len(rest)))
}

fn is_blank_byte(b: u8) -> bool
    ensures { result ≡ is_blank b }
{
    b == b' ' || b == b'\t'
}

fn blank_len(line: &[u8]) -> usize
    ensures within { result ≤ length line.now }
    ensures whole { (i : ℕ) → i < result → is_blank (slice_index line.now i) ≡ true }
    ensures end { result < length line.now → is_blank (slice_index line.now result) ≡ false }
{
    for (i, b) in line.iter().enumerate() {
        if !is_blank_byte(*b) {
            return i;
        }
    }
    line.len()
}

fn token_len(rest: &[u8]) -> usize
    ensures within { result ≤ length rest.now }
    ensures whole { (i : ℕ) → i < result → is_blank (slice_index rest.now i) ≡ false }
    ensures end { result < length rest.now → is_blank (slice_index rest.now result) ≡ true }
{
    for (i, b) in rest.iter().enumerate() {
        if is_blank_byte(*b) {
            return i;
        }
    }
    rest.len()
}
