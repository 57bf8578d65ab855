ghost use Rattle.std.specs.Prelude.{◌≡◌, ℕ, ◌≤◌, ◌<◌, ◌↔◌, ◌⊎◌, List, Some, length, vec_len};
ghost use Rattle.std.specs.Prelude.{vec_capacity, min, IsErr, IfOk, OnErr, Contains};
ghost use Rattle.std.specs.Io.{WritesAtMost};
ghost use Rattle.std.specs.Io.KnownBytes.{WriteAppends};
ghost use Rattle.hls_io.specs.Faults.{CountsFaults, next_count};
ghost use Rattle.hls_io.specs.Bytes.{TellsAlike};

use crate::fault::is_listed;
use crate::{Failed, Sink};
use std::alloc::{AllocError, Global};

/// A sink in memory of a fixed room, which takes at most so many bytes in a call and fails by a
/// list and where it is full.
#[derive(Debug, Drop)]
pub struct MemSink {
    bytes: Vec<u8>,
    room: usize,
    most: usize,
    fail: Vec<u32>,
    calls: u64,
    faults: u64,
    ghost some: { 1 ≤ most },
    ghost in_room: { vec_len bytes ≤ room },
    ghost has_room: { room ≤ vec_capacity bytes },
}

impl MemSink {
    ghost use Rattle.hls_io.specs.MemSink.{bytes_of, IsNew};

    /// An empty sink with room for `room` bytes, which it takes here. Each call takes at most
    /// `most` bytes, and a call whose number, from 0, stands in `fail` is answered with `Failed`.
    ///
    /// # Errors
    ///
    /// Where there is no memory for the room.
    pub fn new(alloc: Global, room: usize, most: usize, fail: Vec<u32>) -> Result<Self, AllocError>
        requires { 1 ≤ most }
        ensures { IfOk result (IsNew room most fail.items) }
    {
        Ok(MemSink {
            bytes: Vec::with_capacity(alloc, room)?,
            room,
            most,
            fail,
            calls: 0,
            faults: 0,
        })
    }

    /// The bytes that were taken.
    pub fn bytes(&self) -> &[u8]
        ensures { result.now ≡ bytes_of self.now }
    {
        &self.bytes
    }
}

impl Sink for MemSink {
    ghost use Rattle.hls_io.specs.MemSink.{bytes_of, free_of, most_of, fail_of, calls_of};
    ghost use Rattle.hls_io.specs.MemSink.{faults_of, KeepsPlan};

    ghost written = { λ s. Some (bytes_of s) };

    ghost faults = { faults_of };

    fn write(&mut self, piece: &[u8]) -> Result<usize, Failed>
        ensures bound { WritesAtMost result piece.now }
        ensures some { IfOk result (λ n. 0 < length piece.now → 0 < n) }
        ensures bytes { WriteAppends (Some (bytes_of self.old)) (Some (bytes_of self.new)) result piece.now }
        ensures told { TellsAlike (Some (bytes_of self.old)) (Some (bytes_of self.new)) }
        ensures faults { CountsFaults (faults_of self.old) (faults_of self.new) result }

        // A listed call fails, as does a full sink, and every other call takes all that it may.
        ensures refused { IsErr result ↔ (Contains (fail_of self.old) (calls_of self.old)
            ⊎ ((free_of self.old ≡ 0) × (0 < length piece.now))) }
        ensures count { IfOk result (λ n. n ≡
            min (most_of self.old) (min (length piece.now) (free_of self.old))) }

        ensures failed { OnErr result (faults_of self.new ≡ next_count (faults_of self.old)) }
        ensures calls { calls_of self.new ≡ next_count (calls_of self.old) }
        ensures plan { KeepsPlan self.old self.new }
    {
        let call = self.calls;
        self.calls = self.calls.saturating_add(1);
        let free = self.room - self.bytes.len();
        if is_listed(&self.fail, call) || (free == 0 && !piece.is_empty()) {
            self.faults = self.faults.saturating_add(1);
            return Err(Failed);
        }
        let count = self.most.min(piece.len()).min(free);
        match self.bytes.extend_from_slice(&piece[..count]) {
            Ok(()) => Ok(count),
            // The room was taken when the sink was made.
            Err(_) => unreachable!(),
        }
    }
}
