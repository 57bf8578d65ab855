ghost use Rattle.std.specs.Prelude.{◌≡◌, ℕ, None, OnErr};
ghost use Rattle.std.specs.Io.{ReadsAtMost};
ghost use Rattle.std.specs.Io.KnownBytes.{ReadConsumes};
ghost use Rattle.hls_io.specs.Faults.{CountsFaults, next_count};
ghost use Rattle.hls_io.specs.Bytes.{TellsAlike};
ghost use Rattle.hls_io.specs.StdSource.{reader_of, faults_of};

use crate::{Failed, Source};
use std::io::Read;

/// A source that passes on what a reader gives, and counts each of its errors. It tells no bytes.
#[derive(Debug, Drop)]
pub struct StdSource<R: Read + Drop> {
    reader: R,
    faults: u64,
}

impl<R: Read + Drop> StdSource<R> {
    /// A source over this reader, with no fault counted.
    pub fn new(reader: R) -> Self
        ensures reader { reader_of result ≡ reader }
        ensures faults { faults_of result ≡ 0 }
    {
        StdSource { reader, faults: 0 }
    }
}

impl<R: Read + Drop> Source for StdSource<R> {
    ghost left = { λ _. None };

    ghost faults = { faults_of };

    fn read(&mut self, buf: &mut [u8]) -> Result<usize, Failed>
        ensures bound { ReadsAtMost result buf.new }
        ensures bytes { ReadConsumes None None result buf.new }
        ensures told { TellsAlike None None }
        ensures faults { CountsFaults (faults_of self.old) (faults_of self.new) result }

        // What the reader tells of its bytes holds of those that are passed on.
        ensures passed { ReadConsumes (R.remaining (reader_of self.old))
            (R.remaining (reader_of self.new)) result buf.new }
        ensures failed { OnErr result (faults_of self.new ≡ next_count (faults_of self.old)) }
    {
        match self.reader.read(buf) {
            Ok(count) => Ok(count),
            Err(_) => {
                self.faults = self.faults.saturating_add(1);
                Err(Failed)
            }
        }
    }
}
