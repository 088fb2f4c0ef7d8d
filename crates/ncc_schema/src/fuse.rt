//! Sources and sinks that fail from some call on.

ghost use Rattle.std.specs.Prelude.{◌≡◌, ◌+◌, ◌-◌, ◌<◌, ◌≤◌, min, IsErr, IfOk, IfErr};
ghost use Rattle.ncc_values.specs.Failures.{last_count, joint_count, Counts};
ghost use Rattle.ncc_schema.specs.Device.{Reads, Writes};

use crate::sink::Sink;
use crate::source::Source;
use ncc_values::{Device, device_failure};

/// What is still passed: so many calls, each of at most so many bytes. After them each call fails.
struct Fuse {
    calls: u64,
    most: u64,
    failures: u64,
    ghost some: { 0 < most },
    ghost counted: { failures ≤ last_count },
}

impl Drop for Fuse {
    fn drop(self) {
        let Fuse {
            calls: _,
            most: _,
            failures: _,
        } = self;
    }
}

impl Fuse {
    fn new(calls: u64, most: u64) -> Fuse
        requires { 0 < most }
        ensures calls { result.calls ≡ calls }
        ensures most { result.most ≡ most }
        ensures failures { result.failures ≡ 0 }
    {
        Fuse {
            calls,
            most,
            failures: 0,
        }
    }

    /// Uses a call up, and answers how many of these bytes it may pass.
    fn pass(&mut self, bytes: usize) -> Result<usize, Device>
        ensures room { IfOk result (λ n. n ≡ min bytes self.old.most) }
        ensures some { IfOk result (λ _. 0 < self.old.calls) }
        ensures none { IfErr result (λ _. self.old.calls ≡ 0) }
        ensures calls { self.new.calls ≡ self.old.calls - 1 }
        ensures most { self.new.most ≡ self.old.most }
        ensures count { Counts self.old.failures self.new.failures result }
    {
        if self.calls == 0 {
            return Err(device_failure(&mut self.failures));
        }
        self.calls -= 1;
        Ok((bytes as u64).min(self.most) as usize)
    }
}

/// Passes some calls to a source, and then fails each. It tells what that source tells.
#[derive(Drop)]
pub struct FuseSource<R> {
    inner: R,
    fuse: Fuse,
}

impl<R: Source> FuseSource<R> {
    ghost use Rattle.ncc_schema.specs.Fuse.{source_of, reads_left, most_read, own_read_failures};

    /// Passes so many calls, each of at most so many bytes.
    pub fn new(inner: R, calls: u64, most: u64) -> FuseSource<R>
        requires { 0 < most }
        ensures source { source_of result ≡ inner }
        ensures calls { reads_left result ≡ calls }
        ensures most { most_read result ≡ most }
        ensures failures { own_read_failures result ≡ 0 }
    {
        FuseSource {
            inner,
            fuse: Fuse::new(calls, most),
        }
    }

    pub fn into_inner(self) -> R
        ensures { result ≡ source_of self }
    {
        let FuseSource { inner, fuse: _ } = self;
        inner
    }
}

impl<R: Source> Source for FuseSource<R> {
    ghost use Rattle.ncc_values.specs.FailureLaws.{joint_count_ends};
    ghost use Rattle.ncc_schema.specs.Fuse.{source_of, reads_left, most_read, own_read_failures};

    ghost left = { λ s. R.left (source_of s) };

    ghost failures = { λ s. joint_count (own_read_failures s) (R.failures (source_of s)) };

    ghost calls = { λ s. last_count - reads_left s };

    ghost at_most_last = { λ s. joint_count_ends _ _ };

    fn read(&mut self, buffer: &mut [u8]) -> Result<usize, Device>
        ensures bytes { Reads (R.left (source_of self.old)) (R.left (source_of self.new)) result buffer.new }
        ensures count { Counts
            (joint_count (own_read_failures self.old) (R.failures (source_of self.old)))
            (joint_count (own_read_failures self.new) (R.failures (source_of self.new))) result }
        ensures calls { last_count - reads_left self.new ≤ last_count - reads_left self.old + 1 }

        // A call is passed once, as long as some are left.
        ensures passes { 0 < reads_left self.old
            → Counts (R.failures (source_of self.old)) (R.failures (source_of self.new)) result }
        ensures spends { reads_left self.new ≡ reads_left self.old - 1 }
        ensures below { R.calls (source_of self.new) ≤ R.calls (source_of self.old) + 1 }
        ensures few { IfOk result (λ n. n ≤ most_read self.old) }
        ensures most { most_read self.new ≡ most_read self.old }

        // After them each call fails, and the source below isn't called.
        ensures fails { reads_left self.old ≡ 0 → IsErr result }
        ensures source { reads_left self.old ≡ 0 → source_of self.new ≡ source_of self.old }
    {
        let room = self.fuse.pass(buffer.len())?;
        self.inner.read(&mut buffer[..room])
    }
}

/// Passes some calls to a sink, and then fails each. It tells what that sink tells.
#[derive(Drop)]
pub struct FuseSink<W> {
    inner: W,
    fuse: Fuse,
}

impl<W: Sink> FuseSink<W> {
    ghost use Rattle.ncc_schema.specs.Fuse.{sink_of, writes_left, most_written, own_write_failures};

    /// Passes so many calls, each of at most so many bytes.
    pub fn new(inner: W, calls: u64, most: u64) -> FuseSink<W>
        requires { 0 < most }
        ensures sink { sink_of result ≡ inner }
        ensures calls { writes_left result ≡ calls }
        ensures most { most_written result ≡ most }
        ensures failures { own_write_failures result ≡ 0 }
    {
        FuseSink {
            inner,
            fuse: Fuse::new(calls, most),
        }
    }

    pub fn into_inner(self) -> W
        ensures { result ≡ sink_of self }
    {
        let FuseSink { inner, fuse: _ } = self;
        inner
    }
}

impl<W: Sink> Sink for FuseSink<W> {
    ghost use Rattle.ncc_values.specs.FailureLaws.{joint_count_ends};
    ghost use Rattle.ncc_schema.specs.Fuse.{sink_of, writes_left, most_written, own_write_failures};

    ghost put = { λ s. W.put (sink_of s) };

    ghost failures = { λ s. joint_count (own_write_failures s) (W.failures (sink_of s)) };

    ghost calls = { λ s. last_count - writes_left s };

    ghost at_most_last = { λ s. joint_count_ends _ _ };

    fn write(&mut self, bytes: &[u8]) -> Result<usize, Device>
        ensures bytes { Writes (W.put (sink_of self.old)) (W.put (sink_of self.new)) result bytes.now }
        ensures count { Counts
            (joint_count (own_write_failures self.old) (W.failures (sink_of self.old)))
            (joint_count (own_write_failures self.new) (W.failures (sink_of self.new))) result }
        ensures calls { last_count - writes_left self.new ≤ last_count - writes_left self.old + 1 }

        // A call is passed once, as long as some are left.
        ensures passes { 0 < writes_left self.old
            → Counts (W.failures (sink_of self.old)) (W.failures (sink_of self.new)) result }
        ensures spends { writes_left self.new ≡ writes_left self.old - 1 }
        ensures below { W.calls (sink_of self.new) ≤ W.calls (sink_of self.old) + 1 }
        ensures few { IfOk result (λ n. n ≤ most_written self.old) }
        ensures most { most_written self.new ≡ most_written self.old }

        // After them each call fails, and the sink below isn't called.
        ensures fails { writes_left self.old ≡ 0 → IsErr result }
        ensures sink { writes_left self.old ≡ 0 → sink_of self.new ≡ sink_of self.old }
    {
        let room = self.fuse.pass(bytes.len())?;
        self.inner.write(&bytes[..room])
    }
}
