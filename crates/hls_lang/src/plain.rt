// Lines that stand as they are, without a comment or a forbidden byte.
ghost use Rattle.std.specs.Prelude.{◌≡◌};
ghost use Rattle.std.specs.List.{list_all};
ghost use Rattle.hls_text.specs.Tokens.{is_blank};
ghost use Rattle.hls_lang.specs.Inside.Steps.{is_plain, are_plain};

// Whether a byte may stand in a line and begins no comment.
fn is_plain_byte(b: u8) -> bool
    ensures { result ≡ is_plain b }
{
    (b == b'\t' || (b >= b' ' && b <= b'~')) && b != b'#'
}

/// Whether all of a line counts, and no byte of it is forbidden.
// It goes on to the end in any case, and so tests many bytes at once.
pub fn is_plain(line: &[u8]) -> bool
    ensures { result ≡ are_plain line.now }
{
    line.iter().fold(true, |all, b| all & is_plain_byte(*b))
}

fn is_blank_byte(b: u8) -> bool
    ensures { result ≡ is_blank b }
{
    b == b' ' || b == b'\t'
}

/// Whether a line has no token.
pub fn is_blank(line: &[u8]) -> bool
    ensures { result ≡ list_all is_blank line.now }
{
    line.iter().all(|b| is_blank_byte(*b))
}
