ghost use Rattle.std.specs.Prelude.{◌≡◌, ℕ, ◌+◌, ◌-◌, ◌<◌, ◌≤◌, ◌⊎◌, List, Option, length, vec_len};
ghost use Rattle.std.specs.Prelude.{IfOk, IfSome, IsErrOf};
ghost use Rattle.std.specs.Io.{ReadsAtMost};
ghost use Rattle.std.specs.Io.KnownBytes.{ReadConsumes};
ghost use Rattle.hls_io.specs.Faults.{Rose, CountsFaults};
ghost use Rattle.hls_io.specs.Bytes.{TellsAlike, IsWhole, TakesFirst, TakesAtMost};
ghost use Rattle.hls_io.specs.declared.source.ReadError.TheVariants.{Memory, Fault};

use crate::Failed;
use std::alloc::{AllocError, Global};

/// Where bytes come from.
pub trait Source {
    /// The bytes that are left to be read, where the source tells them.
    ghost left: { Self → Option (List ℕ) };

    /// How many reads have failed, up to the last value of a `u64`. It never falls.
    ghost faults: { Self → ℕ };

    /// Fills a prefix of `buf` with the next bytes, and returns its length. Of a `buf` that is
    /// not empty, 0 says that the input has ended.
    ///
    /// # Errors
    ///
    /// `Failed` where the read failed. It is counted, and no byte is lost.
    fn read(&mut self, buf: &mut [u8]) -> Result<usize, Failed>
        ensures bound { ReadsAtMost result buf.new }
        ensures bytes { ReadConsumes (left self.old) (left self.new) result buf.new }
        ensures told { TellsAlike (left self.old) (left self.new) }
        ensures faults { CountsFaults (faults self.old) (faults self.new) result };
}

/// Why an input was not read whole.
#[derive(Clone, Copy, Debug, PartialEq, Eq)]
pub enum ReadError {
    /// A read failed.
    Fault,
    /// More bytes came than the limit.
    TooLong,
    /// There was no memory for the bytes.
    Memory,
}

impl From<AllocError> for ReadError {
    ghost from_gives = { λ _ e. e ≡ Memory };

    fn from(_: AllocError) -> Self {
        ReadError::Memory
    }
}

impl From<Failed> for ReadError {
    ghost from_gives = { λ _ e. e ≡ Fault };

    fn from(_: Failed) -> Self {
        ReadError::Fault
    }
}

/// Reads a source to its end.
///
/// # Errors
///
/// `Fault` where a read failed, `TooLong` where more than `most` bytes came, of which one past
/// the limit is read and no more, and `Memory` where there is no room for the bytes. The first
/// that is met is returned. The bytes that were read until then are lost.
pub fn read_all<S: Source>(alloc: Global, source: &mut S, most: usize) -> Result<Vec<u8>, ReadError>
    ensures whole { IfOk result (λ v. IsWhole (S.left source.old) (S.left source.new) v.items) }
    ensures within { IfOk result (λ v. vec_len v ≤ most) }

    // One byte past the limit is read, and no further one.
    ensures long { IsErrOf result ReadError.TooLong
        → IfSome (S.left source.old) (λ xs. most < length xs) }
    ensures past { IsErrOf result ReadError.TooLong
        → TakesFirst (most + 1) (S.left source.old) (S.left source.new) }
    ensures taken { TakesAtMost (most + 1) (S.left source.old) (S.left source.new) }
    ensures longer { IfSome (S.left source.old) (λ xs. most < length xs
        → ¬ Rose (S.faults source.old) (S.faults source.new)
        → IsErrOf result ReadError.TooLong ⊎ IsErrOf result ReadError.Memory) }

    ensures fault { IsErrOf result ReadError.Fault
        → Rose (S.faults source.old) (S.faults source.new) }
    ensures quiet { IsErrOf result ReadError.Fault
        ⊎ (S.faults source.new ≡ S.faults source.old) }
    ensures later { S.faults source.old ≤ S.faults source.new }
    ensures told { TellsAlike (S.left source.old) (S.left source.new) }
{
    let mut bytes = Vec::new(alloc);
    let mut room = [0u8; 4096];
    while bytes.len() <= most {
        let wanted = (most - bytes.len()).saturating_add(1).min(room.len());
        let count = source.read(&mut room[..wanted])?;
        if count == 0 {
            return Ok(bytes);
        }
        bytes.extend_from_slice(&room[..count])?;
    }
    Err(ReadError::TooLong)
}
