//! Sinks of bytes.

ghost use Rattle.std.specs.Prelude.{◌≡◌, ◌+◌, ◌≤◌, ℕ, List, length, Option};
ghost use Rattle.ncc_values.specs.Failures.{last_count, Counts};
ghost use Rattle.ncc_schema.specs.Device.{Writes, WritesAll};

use ncc_values::{Device, device_failure};
use std::io::Write;

/// Where bytes are put out, in order.
pub trait Sink {
    /// The bytes that were put out, where the sink tells them.
    ghost put: { Self → Option (List ℕ) };

    /// How often it failed. The count stays at 2^64 - 1.
    ghost failures: { Self → ℕ };

    /// A number that grows by at most one at each call, so that a caller can bound its calls.
    ghost calls: { Self → ℕ };

    /// Puts out a front of the bytes, at least one where there is one, and answers how many.
    fn write(&mut self, bytes: &[u8]) -> Result<usize, Device>
        ensures bytes { Writes (put self.old) (put self.new) result bytes.now }
        ensures count { Counts (failures self.old) (failures self.new) result }
        ensures calls { calls self.new ≤ calls self.old + 1 };

    /// The count has an end.
    ghost at_most_last: { (sink : Self) → failures sink ≤ last_count };
}

/// Any writer. An error of it is answered as a failure, and so is a write that takes no byte where
/// there is one; neither is tried again.
#[derive(Drop)]
pub struct WriteSink<W> {
    inner: W,
    failures: u64,
    ghost counted: { failures ≤ last_count },
}

impl<W: Write> WriteSink<W> {
    ghost use Rattle.ncc_schema.specs.Sink.{writer_of, write_failures};

    pub fn new(inner: W) -> WriteSink<W>
        ensures writer { writer_of result ≡ inner }
        ensures count { write_failures result ≡ 0 }
    {
        WriteSink { inner, failures: 0 }
    }

    /// How often it failed.
    pub fn failures(&self) -> u64
        ensures { result ≡ write_failures self.now }
    {
        self.failures
    }

    pub fn into_inner(self) -> W
        ensures { result ≡ writer_of self }
    {
        let WriteSink { inner, failures: _ } = self;
        inner
    }
}

impl<W: Write> Sink for WriteSink<W> {
    ghost use Rattle.ncc_schema.specs.Sink.{writer_of, write_failures};

    ghost put = { λ s. W.contents (writer_of s) };

    ghost failures = { λ s. write_failures s };

    ghost calls = { λ s. write_failures s };

    ghost at_most_last = { λ s. s.counted };

    fn write(&mut self, bytes: &[u8]) -> Result<usize, Device> {
        match self.inner.write(bytes) {
            Ok(n) if n > 0 || bytes.is_empty() => Ok(n),
            _ => Err(device_failure(&mut self.failures)),
        }
    }
}

/// Puts out all of the bytes, by as many writes as it takes: at most one for each byte.
pub fn write_all<W: Sink>(sink: &mut W, bytes: &[u8]) -> Result<(), Device>
    ensures bytes { WritesAll (W.put sink.old) (W.put sink.new) result bytes.now }
    ensures count { Counts (W.failures sink.old) (W.failures sink.new) result }
    ensures calls { W.calls sink.new ≤ W.calls sink.old + length bytes.now }
{
    let mut rest = bytes;
    while !rest.is_empty() {
        let n = sink.write(rest)?;
        let (_written, after) = rest.split_at(n);
        rest = after;
    }
    Ok(())
}
