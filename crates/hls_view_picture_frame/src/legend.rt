// The legend: what colours and marks stand for.
ghost use Rattle.std.specs.Prelude.{◌≡◌, ◌<◌, ◌^◌, ◌++◌, OnOk};
ghost use Rattle.hls_view_picture_frame.specs.Front as told;

use hls_view_pieces::Piece::{Number, Text};
use hls_view_pieces::put_pieces;
use std::alloc::AllocError;

#[tactic(auto, unfolding(crate::specs::Front::legend_entry))]
fn put_entry<'a>(
    out: &mut Vec<u8>,
    class: &'a [u8],
    x: u128,
    words: &'a [u8],
) -> Result<(), AllocError>
    requires { x < 2 ^ 80 }
    ensures { OnOk result (out.new.items ≡ out.old.items ++ told.legend_entry class.now x words.now) }
{
    put_pieces(
        out,
        &[
            Text(b"<path class=\""),
            Text(class),
            Text(b"\" d=\"M"),
            Number(x),
            Text(b" 54h14v10h-14z\"/><path class=\""),
            Text(class),
            Text(b" r\" d=\"M"),
            Number(x + 14),
            Text(b" 54h14v10h-14z\"/><text x=\""),
            Number(x + 34),
            Text(b"\" y=\"63\">"),
            Text(words),
            Text(b"</text>\n"),
        ],
    )
}

/// Appends what the colours stand for.
///
/// # Errors
/// Returns `AllocError` for want of memory.
#[tactic(auto, unfolding(crate::specs::Front::legend_text))]
pub fn put_legend(out: &mut Vec<u8>) -> Result<(), AllocError>
    ensures { OnOk result (out.new.items ≡ out.old.items ++ told.legend_text) }
{
    put_entry(out, b"all", 10, b"ALL")?;
    put_entry(out, b"hard", 81, b"hard RESBH RESCH")?;
    put_entry(out, b"soft", 243, b"soft RESBS RESCS")?;
    put_entry(out, b"share", 405, b"share PSBE")?;
    put_entry(out, b"null", 525, b"nothing promised")
}

/// Appends what bars stand for.
#[tactic(auto, unfolding(crate::specs::Front::bars_words))]
fn put_bars_words(out: &mut Vec<u8>) -> Result<(), AllocError>
    ensures { OnOk result (out.new.items ≡ out.old.items ++ told.bars_words) }
{
    put_pieces(
        out,
        &[
            Text(
                b"<text class=\"m\" x=\"687\" y=\"63\">strong: served; faint: ready and waiting; ",
            ),
            Text(b"ground: there, not ready</text>\n"),
        ],
    )
}

/// Appends what marks stand for.
#[tactic(auto, unfolding(crate::specs::Front::marks_words))]
fn put_marks_words(out: &mut Vec<u8>) -> Result<(), AllocError>
    ensures { OnOk result (out.new.items ≡ out.old.items ++ told.marks_words) }
{
    put_pieces(
        out,
        &[
            Text(
                b"<text class=\"m\" x=\"10\" y=\"81\">triangle: a wake; line: a stay begins; cross: a refusal, ",
            ),
            Text(b"or in a row unfinished work dropped; dashed: a move; "),
            Text(b"bracket: where the promise had least to spare</text>\n"),
        ],
    )
}

/// Appends what bars and marks stand for.
///
/// # Errors
/// Returns `AllocError` for want of memory.
#[tactic(auto, unfolding(crate::specs::Front::words_text))]
pub fn put_words(out: &mut Vec<u8>) -> Result<(), AllocError>
    ensures { OnOk result (out.new.items ≡ out.old.items ++ told.words_text) }
{
    put_bars_words(out)?;
    put_marks_words(out)
}
