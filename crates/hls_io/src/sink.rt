ghost use Rattle.std.specs.Prelude.{◌≡◌, ℕ, ◌<◌, List, Option, length, IfOk, OnOk, OnErr};
ghost use Rattle.std.specs.Io.{WritesAtMost};
ghost use Rattle.std.specs.Io.KnownBytes.{Appends, WriteAppends};
ghost use Rattle.hls_io.specs.Faults.{CountsFaults};
ghost use Rattle.hls_io.specs.Bytes.{TellsAlike, AppendsPart};

use crate::Failed;

/// Where bytes go to.
pub trait Sink {
    /// The bytes that were written, where the sink tells them.
    ghost written: { Self → Option (List ℕ) };

    /// How many writes have failed, up to the last value of a `u64`. It never falls.
    ghost faults: { Self → ℕ };

    /// Appends a prefix of `piece`, and returns its length, which is 0 only of an empty piece.
    ///
    /// # Errors
    ///
    /// `Failed` where the write failed, or nothing of a piece that is not empty was taken. It is
    /// counted, and nothing is appended.
    fn write(&mut self, piece: &[u8]) -> Result<usize, Failed>
        ensures bound { WritesAtMost result piece.now }
        ensures some { IfOk result (λ n. 0 < length piece.now → 0 < n) }
        ensures bytes { WriteAppends (written self.old) (written self.new) result piece.now }
        ensures told { TellsAlike (written self.old) (written self.new) }
        ensures faults { CountsFaults (faults self.old) (faults self.new) result };
}

/// Writes all the bytes. Each call of the sink is handed the whole rest of them.
///
/// # Errors
///
/// `Failed` where a write failed, which stops it. A part of the bytes is written by then.
pub fn write_all<K: Sink>(sink: &mut K, bytes: &[u8]) -> Result<(), Failed>
    ensures whole { OnOk result (Appends (K.written sink.old) (K.written sink.new) bytes.now) }
    ensures part { OnErr result (AppendsPart (K.written sink.old) (K.written sink.new) bytes.now) }
    ensures told { TellsAlike (K.written sink.old) (K.written sink.new) }
    ensures faults { CountsFaults (K.faults sink.old) (K.faults sink.new) result }
{
    let mut at = 0;
    while at < bytes.len() {
        at += sink.write(&bytes[at..])?;
    }
    Ok(())
}
