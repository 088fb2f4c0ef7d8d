//! Sinks and stores that fail.

use super::helpers::{INTS, INTS_TEXT, slab};
use ncc_check::open;
use ncc_csv::send_sheet;
use ncc_header::{FuseSink, WriteSink};
use ncc_lines::{FloatStyle, SendError, Unshown};
use ncc_store::{FuseStore, MemStore};
use std::alloc::{AllocError, Global};
use std::test::*;
use test_files::{LIMIT, bytes_of};

/// The answer, and what was sent.
type Sent = (Result<bool, SendError>, Vec<u8>);

/// What is sent where the sink passes so many calls of at most 5 bytes.
fn sent_by_sink(alloc: Global, calls: u64) -> Result<Option<Sent>, AllocError> {
    let slab = slab(alloc, [&[0, 0], &[2, 3], &[1, 1]])?;
    match open(alloc, MemStore::new(bytes_of(alloc, &INTS)?), LIMIT) {
        Ok(file) => {
            let mut file = file;
            let mut sink = FuseSink::new(WriteSink::new(Vec::new(alloc)), calls, 5);
            let answer = send_sheet(
                alloc,
                &mut file,
                0,
                &slab,
                FloatStyle::Bits,
                false,
                &mut sink,
                &mut Unshown,
            );
            Ok(Some((answer, sink.into_inner().into_inner())))
        }
        Err(_) => Ok(None),
    }
}

/// The 6 bytes of the names take two calls, and the 36 of the rows eight.
#[test]
fn sinks_that_fail(rt: HostRuntime) -> Result<(), Fail> {
    for calls in 0..10 {
        let (answer, sent) = sent_by_sink(rt.alloc(), calls)?.expect(&rt, "it passes");
        assert!(rt; answer == Err(SendError::Device), "after {calls}");
        assert!(rt; INTS_TEXT.as_bytes().starts_with(&sent), "after {calls}");
    }
    let (answer, sent) = sent_by_sink(rt.alloc(), 10)?.expect(&rt, "it passes");
    assert!(rt; answer == Ok(true));
    assert!(rt; sent.as_slice() == INTS_TEXT.as_bytes());
    Ok(())
}

/// What is sent of every other column where the store passes so many calls. `None` where opening fails.
fn sent_from_store(alloc: Global, calls: u64) -> Result<Option<Sent>, AllocError> {
    let slab = slab(alloc, [&[0, 0], &[2, 2], &[1, 2]])?;
    let store = FuseStore::new(MemStore::new(bytes_of(alloc, &INTS)?), calls);
    match open(alloc, store, LIMIT) {
        Ok(file) => {
            let mut file = file;
            let mut sink = WriteSink::new(Vec::new(alloc));
            let answer = send_sheet(
                alloc,
                &mut file,
                0,
                &slab,
                FloatStyle::Bits,
                false,
                &mut sink,
                &mut Unshown,
            );
            Ok(Some((answer, sink.into_inner())))
        }
        Err(_) => Ok(None),
    }
}

/// The row of names.
const NAMES: &str = "y,x,m\n";

/// The sheet of every other column.
const LEAPS: &str = "y,x,m\n0,0,1\n0,2,3\n1,0,4\n1,2,6\n";

/// Opening takes two calls. The last element of a row and the first of the next one lie side by side, so that the
/// four elements take three.
#[test]
fn stores_that_fail(rt: HostRuntime) -> Result<(), Fail> {
    for calls in 2..5 {
        let (answer, sent) = sent_from_store(rt.alloc(), calls)?.expect(&rt, "it passes");
        assert!(rt; answer == Err(SendError::Device), "after {calls}");
        assert!(rt; sent.as_slice() == NAMES.as_bytes(), "after {calls}");
    }
    let (answer, sent) = sent_from_store(rt.alloc(), 5)?.expect(&rt, "it passes");
    assert!(rt; answer == Ok(true));
    assert!(rt; sent.as_slice() == LEAPS.as_bytes());
    Ok(())
}
