//! Headers from sources that fail.

use super::helpers::length_of;
use ncc_header::{
    Device, FuseSource, HeaderError, ReadSource, Sink, Source, WriteSink, read_header,
};
use std::alloc::Global;
use std::io;
use std::io::{Error, ErrorKind, Read, Write};
use std::process::Abort;
use std::test::*;
use test_files::{FIXED, LIMIT, bytes_of};

/// Has this answer for its first call, and would pass a byte at each later one.
#[derive(Drop)]
struct FailsOnce {
    first: Option<io::Result<usize>>,
}

impl FailsOnce {
    fn passes(&mut self) -> io::Result<usize> {
        self.first.take().unwrap_or(Ok(1))
    }
}

/// Answers its first call with an error.
fn errs_once() -> FailsOnce {
    FailsOnce {
        first: Some(Err(Error::from(ErrorKind::Other))),
    }
}

/// Takes nothing at its first call.
fn takes_nothing_once() -> FailsOnce {
    FailsOnce { first: Some(Ok(0)) }
}

impl Read for FailsOnce {
    fn read(&mut self, buffer: &mut [u8]) -> io::Result<usize> {
        Ok(self.passes()?.min(buffer.len()))
    }
}

impl Write for FailsOnce {
    fn write(&mut self, bytes: &[u8]) -> io::Result<usize> {
        Ok(self.passes()?.min(bytes.len()))
    }

    fn flush(&mut self) -> io::Result<()> {
        Ok(())
    }
}

/// An error is answered at once and not tried again, and so is a write that takes nothing.
#[test]
fn errors_are_answered(rt: HostRuntime) {
    let mut source = ReadSource::new(errs_once());
    let mut room = [0; 4];
    assert!(rt; source.read(&mut room) == Err(Device));
    assert!(rt; source.read(&mut room) == Ok(1));
    for writer in [errs_once(), takes_nothing_once()] {
        let mut sink = WriteSink::new(writer);
        assert!(rt; sink.write(b"ab") == Err(Device));
        assert!(rt; sink.write(b"ab") == Ok(1));
    }
}

/// What is there is read by one call, and what is taken is written by one.
#[test]
fn one_call_takes_all(rt: HostRuntime) {
    let mut room = [0; 4];
    let mut source = ReadSource::new(b"abc".as_slice());
    assert!(rt; source.read(&mut room) == Ok(3));
    let mut sink = WriteSink::new(Vec::new(rt.alloc()));
    assert!(rt; sink.write(b"abc") == Ok(3));
}

/// The length of the header from a source that passes so many calls of at most `most` bytes.
fn length_after(alloc: Global, input: &[u8], calls: u64, most: u64) -> Result<u64, HeaderError> {
    let mut source = FuseSource::new(ReadSource::new(input), calls, most.max(1));
    length_of(read_header(alloc, &mut source, LIMIT))
}

/// How many calls are enough for the header. With fewer the device has failed.
fn calls_needed<R: Abort + AllocGlobal>(rt: &R, input: &[u8], most: u64) -> Option<(u64, u64)> {
    for calls in 0..100 {
        match length_after(rt.alloc(), input, calls, most) {
            Ok(length) => return Some((calls, length)),
            Err(error) => assert!(rt; error == HeaderError::Device, "after {calls}"),
        }
    }
    None
}

/// Three dimensions, three attributes and three variables, of which two have attributes and one has dimensions.
const MANY: [u32; 87] = [
    0x43444601, 0, 10, 3, 1, 0x78000000, 2, 1, 0x79000000, 3, 1, 0x7a000000, 4, 12, 3, 1,
    0x61000000, 3, 1, 0x00010000, 1, 0x62000000, 3, 1, 0x00010000, 1, 0x63000000, 3, 1, 0x00010000,
    11, 3, 1, 0x75000000, 0, 12, 2, 1, 0x64000000, 3, 1, 0x00010000, 1, 0x65000000, 3, 1,
    0x00010000, 1, 4, 0, 1, 0x76000000, 0, 12, 3, 1, 0x66000000, 3, 1, 0x00010000, 1, 0x67000000,
    3, 1, 0x00010000, 1, 0x68000000, 3, 1, 0x00010000, 1, 4, 0, 1, 0x77000000, 6, 0, 1, 2, 0, 1, 2,
    0, 0, 1, 576, 0,
];

/// The same in CDF-5.
const MANY_IN_CDF_5: [u32; 134] = [
    0x43444605, 0, 0, 10, 0, 3, 0, 1, 0x78000000, 0, 2, 0, 1, 0x79000000, 0, 3, 0, 1, 0x7a000000,
    0, 4, 12, 0, 3, 0, 1, 0x61000000, 3, 0, 1, 0x00010000, 0, 1, 0x62000000, 3, 0, 1, 0x00010000,
    0, 1, 0x63000000, 3, 0, 1, 0x00010000, 11, 0, 3, 0, 1, 0x75000000, 0, 0, 12, 0, 2, 0, 1,
    0x64000000, 3, 0, 1, 0x00010000, 0, 1, 0x65000000, 3, 0, 1, 0x00010000, 1, 0, 4, 0, 0, 0, 1,
    0x76000000, 0, 0, 12, 0, 3, 0, 1, 0x66000000, 3, 0, 1, 0x00010000, 0, 1, 0x67000000, 3, 0, 1,
    0x00010000, 0, 1, 0x68000000, 3, 0, 1, 0x00010000, 1, 0, 4, 0, 0, 0, 1, 0x77000000, 0, 6, 0, 0,
    0, 1, 0, 2, 0, 0, 0, 1, 0, 2, 0, 0, 0, 1, 0, 576, 0, 0,
];

/// As many bytes are asked for as are surely still to come, by the numbers of items that are left: in CDF-1 32, 29,
/// 43, 17, 7, 84, 48, 52 and 36.
#[test]
fn many_items(rt: HostRuntime) -> Result<(), Fail> {
    let many = bytes_of(rt.alloc(), &MANY)?;
    assert!(rt; calls_needed(&rt, &many, 1000) == Some((9, 348)));
    let many = bytes_of(rt.alloc(), &MANY_IN_CDF_5)?;
    assert!(rt; calls_needed(&rt, &many, 1000) == Some((16, 536)));
    Ok(())
}

/// An attribute of 10,000 chars: at most 4,096 bytes are asked for at once, here 32, 16, 4,096, 4,096 and 1,808.
#[test]
fn long_values(rt: HostRuntime) -> Result<(), Fail> {
    let words = [0x43444601, 0, 0, 0, 12, 1, 1, 0x6e000000, 2, 10_000];
    let mut bytes = bytes_of(rt.alloc(), &words)?;
    bytes.resize(10_048, 0)?;
    assert!(rt; calls_needed(&rt, &bytes, 100_000) == Some((5, 10_048)));
    Ok(())
}

#[test]
fn failing_sources(rt: HostRuntime) -> Result<(), Fail> {
    let bytes = bytes_of(rt.alloc(), &FIXED)?;
    // Five bytes at a time, but no more than are surely still to come: 4 after the first 40, until the
    // number of variables is known, and the last 1. And a call for each byte.
    assert!(rt; calls_needed(&rt, &bytes, 5) == Some((17, 80)));
    assert!(rt; calls_needed(&rt, &bytes, 1) == Some((80, 80)));
    Ok(())
}
