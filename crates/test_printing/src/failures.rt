//! Sources, stores and sinks that fail.

use super::helpers::{ATTRIBUTES_TEXT, EACH_NOTE, EACH_NOTE_TEXT, pick_of};
use ncc_batch::list_source;
use ncc_engines::{Answer, check_engine, csv_engine, list_engine};
use ncc_header::{ReadSource, WriteSink};
use ncc_lines::{FloatStyle, Unshown};
use ncc_store::{FuseStore, MemStore};
use std::io;
use std::io::{Error, ErrorKind, Read, Write};
use std::test::*;
use test_files::{ATTRIBUTES, FIXED, LIMIT, bytes_of};

/// A reader that gives at most 5 bytes a call, and fails once it has given so many.
#[derive(Drop)]
struct FailingReader<'a> {
    bytes: &'a [u8],
    left: usize,
}

impl Read for FailingReader<'_> {
    fn read(&mut self, buffer: &mut [u8]) -> io::Result<usize> {
        let n = self.left.min(5).min(self.bytes.len()).min(buffer.len());
        if n == 0 {
            return Err(Error::from(ErrorKind::Other));
        }
        let (front, after) = self.bytes.split_at(n);
        buffer[..n].copy_from_slice(front);
        self.bytes = after;
        self.left -= n;
        Ok(n)
    }
}

/// A writer that takes at most 3 bytes a call, and fails once it has taken so many.
#[derive(Drop)]
struct FailingWriter {
    taken: Vec<u8>,
    left: usize,
}

impl Write for FailingWriter {
    fn write(&mut self, bytes: &[u8]) -> io::Result<usize> {
        let n = self.left.min(3).min(bytes.len());
        if n == 0 {
            return Err(Error::from(ErrorKind::Other));
        }
        let (front, _after) = bytes.split_at(n);
        self.taken.extend_from_slice(front)?;
        self.left -= n;
        Ok(n)
    }

    fn flush(&mut self) -> io::Result<()> {
        Ok(())
    }
}

/// The source fails in mid-stream: no line goes out.
#[test]
fn failing_sources(rt: HostRuntime) -> Result<(), Fail> {
    let alloc = rt.alloc();
    let input = bytes_of(alloc, &ATTRIBUTES)?;
    for left in 0..input.len() {
        let mut source = ReadSource::new(FailingReader {
            bytes: &input,
            left,
        });
        let mut sink = WriteSink::new(Vec::new(alloc));
        assert!(rt;
            list_engine(alloc, &mut source, LIMIT, FloatStyle::Bits, &mut sink) == Answer::Device
        );
        assert!(rt; sink.into_inner().is_empty());
    }
    Ok(())
}

/// As an object that is what goes out.
#[test]
fn failing_sources_as_objects(rt: HostRuntime) -> Result<(), Fail> {
    let alloc = rt.alloc();
    let input = bytes_of(alloc, &ATTRIBUTES)?;
    let wanted = "{\"file\":\"-\",\"status\":3,\"verdict\":\"error\",\"error\":\"device\"}\n";
    for left in 0..input.len() {
        let mut source = ReadSource::new(FailingReader {
            bytes: &input,
            left,
        });
        let mut sink = WriteSink::new(Vec::new(alloc));
        let answer = list_source(alloc, &mut source, b"-", LIMIT, FloatStyle::Bits, &mut sink);
        assert!(rt; answer == Ok(Answer::Device));
        assert!(rt; sink.into_inner().as_slice() == wanted.as_bytes());
    }
    Ok(())
}

/// The sink fails in mid-stream: what it took is a front of the text.
#[test]
fn failing_sinks(rt: HostRuntime) -> Result<(), Fail> {
    let alloc = rt.alloc();
    let input = bytes_of(alloc, &ATTRIBUTES)?;
    let text = ATTRIBUTES_TEXT.as_bytes();
    for left in 0..=text.len() {
        let mut source = ReadSource::new(input.as_slice());
        let taken = Vec::new(alloc);
        let mut sink = WriteSink::new(FailingWriter { taken, left });
        let answer = list_engine(alloc, &mut source, LIMIT, FloatStyle::Bits, &mut sink);
        let wanted = if left < text.len() {
            Answer::Device
        } else {
            Answer::Passed
        };
        assert!(rt; answer == wanted);
        let (front, _rest) = text.split_at(left.min(text.len()));
        assert!(rt; sink.into_inner().taken.as_slice() == front);
    }
    Ok(())
}

/// The store fails at its first or second call, of the two that a check makes here: no line goes out.
#[test]
fn failing_stores(rt: HostRuntime) -> Result<(), Fail> {
    let alloc = rt.alloc();
    for calls in 0..4 {
        let bytes = bytes_of(alloc, &EACH_NOTE)?;
        let mut store = FuseStore::new(MemStore::new(bytes), calls);
        let mut sink = WriteSink::new(Vec::new(alloc));
        let answer = check_engine(alloc, &mut store, LIMIT, false, &mut sink);
        let (wanted, text) = if calls < 2 {
            (Answer::Device, "")
        } else {
            (Answer::Passed, EACH_NOTE_TEXT)
        };
        assert!(rt; answer == wanted);
        assert!(rt; sink.into_inner().as_slice() == text.as_bytes());
    }
    Ok(())
}

/// However long the file is, its header alone is read: one call for the length, and one for the first piece.
#[test]
fn no_call_past_the_header(rt: HostRuntime) -> Result<(), Fail> {
    let alloc = rt.alloc();
    let mut bytes = bytes_of(alloc, &FIXED)?;
    bytes.resize(300_000, 0)?;
    let mut store = FuseStore::new(MemStore::new(bytes), 2);
    let mut sink = WriteSink::new(Vec::new(alloc));
    assert!(rt; check_engine(alloc, &mut store, LIMIT, true, &mut sink) == Answer::Passed);
    assert!(rt; sink.into_inner().as_slice() == b"ok CDF-1 records 0 variables 1\n".as_slice());
    Ok(())
}

/// A writer that fails at its first call alone.
#[derive(Drop)]
struct FailsOnce {
    failed: bool,
    taken: Vec<u8>,
}

impl Write for FailsOnce {
    fn write(&mut self, bytes: &[u8]) -> io::Result<usize> {
        if !self.failed {
            self.failed = true;
            return Err(Error::from(ErrorKind::Other));
        }
        self.taken.extend_from_slice(bytes)?;
        Ok(bytes.len())
    }

    fn flush(&mut self) -> io::Result<()> {
        Ok(())
    }
}

/// An error of the sink is answered at once: nothing is sent again.
#[test]
fn sinks_that_fail_once(rt: HostRuntime) -> Result<(), Fail> {
    let alloc = rt.alloc();
    let input = bytes_of(alloc, &ATTRIBUTES)?;
    let mut source = ReadSource::new(input.as_slice());
    let taken = Vec::new(alloc);
    let failed = false;
    let mut sink = WriteSink::new(FailsOnce { failed, taken });
    assert!(rt;
        list_engine(alloc, &mut source, LIMIT, FloatStyle::Bits, &mut sink) == Answer::Device
    );
    assert!(rt; sink.into_inner().taken.is_empty());
    let mut store = MemStore::new(bytes_of(alloc, &EACH_NOTE)?);
    let taken = Vec::new(alloc);
    let mut sink = WriteSink::new(FailsOnce { failed, taken });
    assert!(rt; check_engine(alloc, &mut store, LIMIT, true, &mut sink) == Answer::Device);
    assert!(rt; sink.into_inner().taken.is_empty());
    Ok(())
}

/// The sink fails in mid-stream: what it took is a front of the verdict.
#[test]
fn failing_sinks_of_verdicts(rt: HostRuntime) -> Result<(), Fail> {
    let alloc = rt.alloc();
    let text = EACH_NOTE_TEXT.as_bytes();
    for left in 0..=text.len() {
        let mut store = MemStore::new(bytes_of(alloc, &EACH_NOTE)?);
        let taken = Vec::new(alloc);
        let mut sink = WriteSink::new(FailingWriter { taken, left });
        let answer = check_engine(alloc, &mut store, LIMIT, true, &mut sink);
        let wanted = if left < text.len() {
            Answer::Device
        } else {
            Answer::Refused
        };
        assert!(rt; answer == wanted);
        let (front, _rest) = text.split_at(left.min(text.len()));
        assert!(rt; sink.into_inner().taken.as_slice() == front);
    }
    Ok(())
}

/// What is printed of the first fixture with rows.
const ROWS: &str = "x,v\n0,1\n1,2\n2,3\n";

/// The sink fails in mid-stream: what it took is a front of the rows.
#[test]
fn failing_sinks_of_rows(rt: HostRuntime) -> Result<(), Fail> {
    let alloc = rt.alloc();
    let text = ROWS.as_bytes();
    for left in 0..=text.len() {
        let store = MemStore::new(bytes_of(alloc, &FIXED)?);
        let taken = Vec::new(alloc);
        let mut sink = WriteSink::new(FailingWriter { taken, left });
        let pick = pick_of(alloc, "", "", "")?;
        let (_, answer) = csv_engine(
            alloc,
            store,
            LIMIT,
            b"v",
            pick,
            FloatStyle::Bits,
            false,
            &mut sink,
            &mut Unshown,
        );
        let wanted = if left < text.len() {
            Answer::Device
        } else {
            Answer::Passed
        };
        assert!(rt; answer == wanted);
        let (front, _rest) = text.split_at(left.min(text.len()));
        assert!(rt; sink.into_inner().taken.as_slice() == front);
    }
    Ok(())
}

/// The store fails at one of the three calls that are made here: for the length, the header, and the values. No more
/// than the row of names goes out, and the store comes back.
#[test]
fn failing_stores_of_rows(rt: HostRuntime) -> Result<(), Fail> {
    let alloc = rt.alloc();
    for calls in 0..5 {
        let store = FuseStore::new(MemStore::new(bytes_of(alloc, &FIXED)?), calls);
        let mut sink = WriteSink::new(Vec::new(alloc));
        let pick = pick_of(alloc, "", "", "")?;
        let (store, answer) = csv_engine(
            alloc,
            store,
            LIMIT,
            b"v",
            pick,
            FloatStyle::Bits,
            false,
            &mut sink,
            &mut Unshown,
        );
        let (wanted, text) = match calls {
            0 | 1 => (Answer::Device, ""),
            2 => (Answer::Device, "x,v\n"),
            _ => (Answer::Passed, ROWS),
        };
        assert!(rt; answer == wanted);
        assert!(rt; sink.into_inner().as_slice() == text.as_bytes());
        assert!(rt; store.left() == calls.saturating_sub(3));
    }
    Ok(())
}
