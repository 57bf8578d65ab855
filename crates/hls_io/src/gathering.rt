// Pieces that are gathered in a room before they are written.
ghost use Rattle.std.specs.Prelude.{◌≡◌, ◌+◌, ◌≤◌, ◌++◌, [], OnOk, OnErr, length, vec_len, vec_capacity};
ghost use Rattle.std.specs.Io.KnownBytes.{Appends};
ghost use Rattle.hls_io.specs.Faults.{CountsFaults};
ghost use Rattle.hls_io.specs.Bytes.{TellsAlike, AppendsPart, Gathers};

use crate::sink::write_all;
use crate::{Failed, Sink};

/// How long a piece is at most that is put into a room byte by byte, which is quicker than a call.
const SHORT: usize = 16;

/// Puts a short piece behind what a room holds, byte by byte.
fn put_short(room: &mut Vec<u8>, piece: &[u8])
    requires { vec_len room.old + length piece.now ≤ vec_capacity room.old }
    ensures { room.new.items ≡ room.old.items ++ piece.now }
{
    for byte in piece {
        room.push_reserved(*byte);
    }
}

/// Puts a piece behind what a room holds, where it fits.
fn put(room: &mut Vec<u8>, piece: &[u8])
    requires { vec_len room.old + length piece.now ≤ vec_capacity room.old }
    ensures { room.new.items ≡ room.old.items ++ piece.now }
{
    if piece.len() <= SHORT {
        put_short(room, piece);
        return;
    }
    match room.extend_from_slice(piece) {
        Ok(()) => {}
        // There is place for it.
        Err(_) => unreachable!(),
    }
}

/// Writes what a room holds, and then a piece that did not fit behind it: into the room that is empty now where it
/// fits there.
#[cold]
#[inline(never)]
fn write_on<K: Sink>(sink: &mut K, room: &mut Vec<u8>, piece: &[u8]) -> Result<(), Failed>
    ensures whole { OnOk result
        (Gathers (K.written sink.old) (K.written sink.new) room.old.items room.new.items piece.now) }
    ensures part { OnErr result
        (AppendsPart (K.written sink.old) (K.written sink.new) (room.old.items ++ piece.now)) }
    ensures told { TellsAlike (K.written sink.old) (K.written sink.new) }
    ensures faults { CountsFaults (K.faults sink.old) (K.faults sink.new) result }
{
    write_all(sink, room)?;
    room.clear();
    if piece.len() > room.capacity() {
        return write_all(sink, piece);
    }
    put(room, piece);
    Ok(())
}

/// Hands bytes on to a sink through a room: they are put into it where they fit. Else what it holds is written
/// first, and bytes that are longer than the room are written straight away. Takes no memory.
///
/// # Errors
///
/// `Failed` where a write failed. A part of the bytes that the room held, and of these, is written by then.
#[inline]
pub fn gather<K: Sink>(sink: &mut K, room: &mut Vec<u8>, piece: &[u8]) -> Result<(), Failed>
    ensures whole { OnOk result
        (Gathers (K.written sink.old) (K.written sink.new) room.old.items room.new.items piece.now) }
    ensures part { OnErr result
        (AppendsPart (K.written sink.old) (K.written sink.new) (room.old.items ++ piece.now)) }
    ensures told { TellsAlike (K.written sink.old) (K.written sink.new) }
    ensures faults { CountsFaults (K.faults sink.old) (K.faults sink.new) result }
{
    if piece.len() > room.capacity() - room.len() {
        return write_on(sink, room, piece);
    }
    put(room, piece);
    Ok(())
}
