ghost use Rattle.std.specs.Prelude.{◌≡◌, ℕ, ◌≤◌, ◌<◌, ◌↔◌, List, Some, drop, length, min, IsErr};
ghost use Rattle.std.specs.Prelude.{IfOk, MatchResult, OnErr, Contains};
ghost use Rattle.std.specs.Io.{ReadsAtMost};
ghost use Rattle.std.specs.Io.KnownBytes.{ReadConsumes};
ghost use Rattle.hls_io.specs.Faults.{CountsFaults, next_count};
ghost use Rattle.hls_io.specs.Bytes.{TellsAlike};

use crate::fault::is_listed;
use crate::{Failed, Source};

/// A source of bytes in memory, which gives at most so many bytes in a call and fails by a list.
#[derive(Debug, Drop)]
pub struct MemSource {
    bytes: Vec<u8>,
    at: usize,
    most: usize,
    fail: Vec<u32>,
    calls: u64,
    faults: u64,
    ghost in_range: { at ≤ length bytes.items },
    ghost some: { 1 ≤ most },
}

impl MemSource {
    ghost use Rattle.hls_io.specs.MemSource.{left_of, most_of, fail_of, calls_of, faults_of};

    /// A source of these bytes. Each call gives at most `most` of them, and a call whose number,
    /// from 0, stands in `fail` is answered with `Failed`.
    pub fn new(bytes: Vec<u8>, most: usize, fail: Vec<u32>) -> Self
        requires { 1 ≤ most }
        ensures left { left_of result ≡ bytes.items }
        ensures most { most_of result ≡ most }
        ensures fail { fail_of result ≡ fail.items }
        ensures calls { calls_of result ≡ 0 }
        ensures faults { faults_of result ≡ 0 }
    {
        MemSource {
            bytes,
            at: 0,
            most,
            fail,
            calls: 0,
            faults: 0,
        }
    }
}

impl Source for MemSource {
    ghost use Rattle.hls_io.specs.MemSource.{left_of, most_of, fail_of, calls_of, faults_of, KeepsPlan};

    ghost left = { λ s. Some (left_of s) };

    ghost faults = { faults_of };

    fn read(&mut self, buf: &mut [u8]) -> Result<usize, Failed>
        ensures bound { ReadsAtMost result buf.new }
        ensures bytes { ReadConsumes (Some (left_of self.old)) (Some (left_of self.new)) result buf.new }
        ensures told { TellsAlike (Some (left_of self.old)) (Some (left_of self.new)) }
        ensures faults { CountsFaults (faults_of self.old) (faults_of self.new) result }

        // A listed call fails, and every other call gives as many bytes as it may.
        ensures listed { IsErr result ↔ Contains (fail_of self.old) (calls_of self.old) }
        ensures count { IfOk result (λ n. n ≡
            min (most_of self.old) (min (length buf.new) (length (left_of self.old)))) }
        ensures rest { MatchResult result (λ n. drop n buf.new ≡ drop n buf.old)
            (λ _. buf.new ≡ buf.old) }

        ensures failed { OnErr result (faults_of self.new ≡ next_count (faults_of self.old)) }
        ensures calls { calls_of self.new ≡ next_count (calls_of self.old) }
        ensures plan { KeepsPlan self.old self.new }
    {
        let call = self.calls;
        self.calls = self.calls.saturating_add(1);
        if is_listed(&self.fail, call) {
            self.faults = self.faults.saturating_add(1);
            return Err(Failed);
        }
        let left = &self.bytes[self.at..];
        let count = self.most.min(buf.len()).min(left.len());
        buf[..count].copy_from_slice(&left[..count]);
        self.at += count;
        Ok(count)
    }
}
