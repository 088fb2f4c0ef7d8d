//! Sources of bytes.

ghost use Rattle.std.specs.Prelude.{◌≡◌, ◌+◌, ◌≤◌, ℕ, List, Option};
ghost use Rattle.ncc_values.specs.Failures.{last_count, Counts};
ghost use Rattle.ncc_schema.specs.Device.{Reads};

use ncc_values::{Device, device_failure};
use std::io::Read;

/// Where bytes come from, in order.
pub trait Source {
    /// The bytes still to be read, where the source tells them.
    ghost left: { Self → Option (List ℕ) };

    /// How often it failed. The count stays at 2^64 - 1.
    ghost failures: { Self → ℕ };

    /// A number that grows by at most one at each call, so that a caller can bound its calls.
    ghost calls: { Self → ℕ };

    /// Reads some of the next bytes into the buffer, and answers how many. None into a buffer with
    /// room means the end.
    fn read(&mut self, buffer: &mut [u8]) -> Result<usize, Device>
        ensures bytes { Reads (left self.old) (left self.new) result buffer.new }
        ensures count { Counts (failures self.old) (failures self.new) result }
        ensures calls { calls self.new ≤ calls self.old + 1 };

    /// The count has an end.
    ghost at_most_last: { (source : Self) → failures source ≤ last_count };
}

/// Any reader. An error of it is answered as a failure, and not read over.
#[derive(Drop)]
pub struct ReadSource<R> {
    inner: R,
    failures: u64,
    ghost counted: { failures ≤ last_count },
}

impl<R: Read> ReadSource<R> {
    ghost use Rattle.ncc_schema.specs.Source.{reader_of, read_failures};

    pub fn new(inner: R) -> ReadSource<R>
        ensures reader { reader_of result ≡ inner }
        ensures count { read_failures result ≡ 0 }
    {
        ReadSource { inner, failures: 0 }
    }

    pub fn into_inner(self) -> R
        ensures { result ≡ reader_of self }
    {
        let ReadSource { inner, failures: _ } = self;
        inner
    }
}

impl<R: Read> Source for ReadSource<R> {
    ghost use Rattle.ncc_schema.specs.Source.{reader_of, read_failures};

    ghost left = { λ s. R.remaining (reader_of s) };

    ghost failures = { λ s. read_failures s };

    ghost calls = { λ s. read_failures s };

    ghost at_most_last = { λ s. s.counted };

    fn read(&mut self, buffer: &mut [u8]) -> Result<usize, Device> {
        match self.inner.read(buffer) {
            Ok(n) => Ok(n),
            Err(_) => Err(device_failure(&mut self.failures)),
        }
    }
}
