//! Files that are extended, where an output or a store fails.

use ncc_engines::{Answer, extend_engine, extend_file};
use ncc_header::{FuseSink, WriteSink};
use ncc_store::{Call, FuseStore, LogFile, LogStore, MemStore};
use std::alloc::{AllocError, Global};
use std::test::*;
use test_files::{FIXED, LIMIT, RECORDS, RECORDS_DATA, TWO_RECORD_VARIABLES, bytes_of, with_byte};

/// A file, how many records are added, and what the file is then.
#[derive(Drop)]
struct Row {
    bytes: Vec<u8>,
    more: u64,
    after: Vec<u8>,
}

/// Three records of a short, and these bytes after them, with this many records by the header.
fn records(alloc: Global, count: u8, behind: &[u8]) -> Result<Vec<u8>, AllocError> {
    let mut bytes = with_byte(alloc, &RECORDS, 7, count)?;
    bytes.extend_from_slice(&RECORDS_DATA)?;
    bytes.extend_from_slice(behind)?;
    Ok(bytes)
}

/// Two records of a byte and of a short, which has no padding after the last.
fn two_variables(alloc: Global, count: u8, behind: &[u8]) -> Result<Vec<u8>, AllocError> {
    let mut bytes = with_byte(alloc, &TWO_RECORD_VARIABLES, 7, count)?;
    bytes.truncate(130);
    bytes.extend_from_slice(behind)?;
    Ok(bytes)
}

/// Two records whose second variable begins two bytes after the padding of the first.
fn with_gap(alloc: Global) -> Result<Vec<u8>, AllocError> {
    with_byte(alloc, &TWO_RECORD_VARIABLES, 115, 122)
}

/// Three records of a short, the last of which lacks a byte.
fn records_cut(alloc: Global) -> Result<Vec<u8>, AllocError> {
    let mut bytes = records(alloc, 3, &[])?;
    bytes.truncate(85);
    Ok(bytes)
}

/// The three records of a file that is still written.
fn streaming(alloc: Global) -> Result<Vec<u8>, AllocError> {
    let mut words = RECORDS;
    words[1] = 0xffffffff;
    let mut bytes = bytes_of(alloc, &words)?;
    bytes.extend_from_slice(&RECORDS_DATA)?;
    Ok(bytes)
}

/// The file is refused, and stays.
fn refused(alloc: Global, bytes: Vec<u8>, more: u64) -> Result<Row, AllocError> {
    let after = bytes.to_vec(alloc)?;
    Ok(Row { bytes, more, after })
}

/// The file has these bytes then.
fn extended(bytes: Vec<u8>, more: u64, after: Vec<u8>) -> Row {
    Row { bytes, more, after }
}

fn rows(alloc: Global) -> Result<Vec<Row>, AllocError> {
    let three = [0x80, 1, 0x80, 1, 0x80, 1];
    let both = [0, 0, 0x81, 0x81, 0x81, 0x81, 0x80, 1, 0x80, 1];
    let mut rows = Vec::new(alloc);
    rows.push(extended(records(alloc, 3, &[])?, 1, records(alloc, 4, &three[..2])?))?;
    rows.push(extended(records(alloc, 3, &[])?, 3, records(alloc, 6, &three)?))?;
    rows.push(extended(records(alloc, 3, &[])?, 0, records(alloc, 3, &[])?))?;
    rows.push(extended(
        two_variables(alloc, 2, &[])?,
        1,
        two_variables(alloc, 3, &both)?,
    ))?;
    rows.push(extended(bytes_of(alloc, &FIXED)?, 0, bytes_of(alloc, &FIXED)?))?;
    rows.push(extended(streaming(alloc)?, 0, streaming(alloc)?))?;
    rows.push(refused(alloc, bytes_of(alloc, &FIXED)?, 1)?)?;
    rows.push(refused(alloc, streaming(alloc)?, 2)?)?;
    rows.push(refused(alloc, with_gap(alloc)?, 1)?)?;
    rows.push(extended(with_gap(alloc)?, 0, with_gap(alloc)?))?;
    rows.push(refused(alloc, Vec::new(alloc), 0)?)?;
    rows.push(refused(alloc, records_cut(alloc)?, 1)?)?;
    Ok(rows)
}

/// The line is one call of the output: where it fails the file is the same as where it doesn't.
#[test]
fn outputs_that_fail(rt: HostRuntime) -> Result<(), Fail> {
    let alloc = rt.alloc();
    for row in rows(alloc)? {
        let Row { bytes, more, after } = row;
        let mut sink = FuseSink::new(WriteSink::new(Vec::new(alloc)), 0, 65_536);
        let (store, found) = extend_engine(alloc, MemStore::new(bytes), LIMIT, more, &mut sink);
        assert!(rt; found == Answer::Device);
        assert!(rt; sink.into_inner().into_inner().is_empty());
        assert!(rt; store.into_bytes().as_slice() == after.as_slice());
    }
    Ok(())
}

/// Two calls check the file, and a sync brings to the disk what may be pending; each record takes four calls, or five
/// where bytes are missing before it.
#[test]
fn stores_that_fail(rt: HostRuntime) -> Result<(), Fail> {
    let alloc = rt.alloc();
    for calls in 0..13 {
        let store = FuseStore::new(MemStore::new(two_variables(alloc, 2, &[])?), calls);
        let mut sink = WriteSink::new(Vec::new(alloc));
        let (_, answer) = extend_engine(alloc, store, LIMIT, 2, &mut sink);
        let (wanted, text) = if calls < 12 {
            (Answer::Device, "")
        } else {
            (Answer::Passed, "records 4\n")
        };
        assert!(rt; answer == wanted);
        assert!(rt; sink.into_inner().as_slice() == text.as_bytes());
    }
    Ok(())
}

/// What was pending at the start goes to the disk before the first record is written; with none to add nothing is done.
#[test]
fn syncs_first(rt: HostRuntime) -> Result<(), Fail> {
    let alloc = rt.alloc();
    for (more, calls) in [(0, 0), (1, 6)] {
        let log = LogStore::new(alloc, two_variables(alloc, 2, &[])?);
        let mut sink = WriteSink::new(Vec::new(alloc));
        let file = LogFile::new(log, 65_536, 100);
        let (file, answer) = extend_file(alloc, file, LIMIT, more, &mut sink);
        assert!(rt; answer == Answer::Passed);
        let log = file.into_log();
        assert_eq!(rt; log.calls().len(), calls);
        assert!(rt; matches!(log.calls().first(), Some(Call::Sync) | None));
    }
    Ok(())
}
