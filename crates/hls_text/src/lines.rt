// Lines, and what of a line counts.
ghost use Rattle.std.specs.Prelude.{◌≡◌, ◌∷◌, [], ◌<◌, ◌==◌, MatchOption, IfSome, length, take_while, not};
ghost use Rattle.hls_text.specs.Lines.{lines_of, without_return, shown_of, may_stand, is_clean_line};

/// The first line of a text, without its end, and what stands after that. `None` for the empty
/// text alone.
pub fn next_line(text: &[u8]) -> Option<(&[u8], &[u8])>
    ensures cases { MatchOption result (lines_of text.now ≡ [])
        (λ p. lines_of text.now ≡ p.0.now ∷ lines_of p.1.now) }
    ensures shorter { IfSome result (λ p. length p.1.now < length text.now) }
{
    if text.is_empty() {
        return None;
    }
    for (i, b) in text.iter().enumerate() {
        if *b == b'\n' {
            return Some((without_return(&text[..i]), &text[i + 1..]));
        }
    }
    Some((text, &[]))
}

/// The line without a byte 13 at its end.
fn without_return(line: &[u8]) -> &[u8]
    ensures { result.now ≡ without_return line.now }
{
    if line.len() > 0 && line[line.len() - 1] == b'\r' {
        return &line[..line.len() - 1];
    }
    line
}

fn comment_place(line: &[u8]) -> usize
    ensures { result ≡ length (take_while (λ b. not (b == 35)) line.now) }
{
    line.iter().take_while(|b| **b != b'#').count()
}

/// The line without its comment.
pub fn shown(line: &[u8]) -> &[u8]
    ensures { result.now ≡ shown_of line.now }
{
    &line[..comment_place(line)]
}

fn may_stand_byte(b: u8) -> bool
    ensures { result ≡ may_stand b }
{
    b == b'\t' || (b >= b' ' && b <= b'~')
}

/// Whether no byte outside the line's comment is forbidden.
pub fn is_clean(line: &[u8]) -> bool
    ensures { result ≡ is_clean_line line.now }
{
    shown(line).iter().all(|b| may_stand_byte(*b))
}
