// Texts that are made of pieces.
ghost use Rattle.std.specs.Prelude.{◌≡◌, ◌++◌, OnOk, flat_map};
ghost use Rattle.hls_view_pieces.specs.Pieces.{piece_text};

use hls_text::{put, put_number};
use std::alloc::AllocError;

/// A piece of a text.
#[derive(Clone, Copy, Debug)]
pub enum Piece<'a> {
    /// These bytes.
    Text(&'a [u8]),
    /// A number in decimal.
    Number(u128),
}

fn put_piece(out: &mut Vec<u8>, piece: &Piece) -> Result<(), AllocError>
    ensures { OnOk result (out.new.items ≡ out.old.items ++ piece_text piece.now) }
{
    match piece {
        Piece::Text(text) => put(out, text),
        Piece::Number(number) => put_number(out, *number),
    }
}

/// Appends pieces, one behind the other.
///
/// # Errors
/// Returns `AllocError` for want of memory.
pub fn put_pieces(out: &mut Vec<u8>, pieces: &[Piece]) -> Result<(), AllocError>
    ensures { OnOk result (out.new.items ≡ out.old.items ++ flat_map piece_text pieces.now) }
{
    for piece in pieces {
        put_piece(out, piece)?;
    }
    Ok(())
}
