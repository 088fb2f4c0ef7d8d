//! Files that are extended over stores that fail, and stops in between.

use crate::open_files::*;
use ncc_check::AppendError::*;
use ncc_check::{AppendError, NcFile, open};
use ncc_store::{Call, FuseStore, LogStore, MemStore};
use ncc_write::{append, extend, fill_record};
use std::alloc::{AllocError, Global};
use std::test::*;
use test_files::LIMIT;

/// The ints with one record of fill values.
const INTS_AND_1: File = File {
    changes: &[(1, 2)],
    data: &[0x80, 0, 0, 1, 0x80, 0, 0, 1, 0x80, 0, 0, 1],
    length: 120,
    ..INTS
};

/// With two.
const INTS_AND_2: File = File {
    changes: &[(1, 3)],
    data: &[
        0x80, 0, 0, 1, 0x80, 0, 0, 1, 0x80, 0, 0, 1, 0x80, 0, 0, 1, 0x80, 0, 0, 1, 0x80, 0, 0, 1,
    ],
    length: 132,
    ..INTS
};

/// The records of the bytes, where they pass and hold the file with so many.
fn held(alloc: Global, bytes: &[u8]) -> Option<u64> {
    let records = records_in(alloc, bytes)?;
    let file = match records {
        1 => INTS,
        2 => INTS_AND_1,
        3 => INTS_AND_2,
        _ => return None,
    };
    if bytes.starts_with(file_of(alloc, &file).ok()?.as_slice()) {
        return Some(records);
    }
    None
}

/// How many calls a file takes to be opened: the length, and the header in one piece.
const TO_OPEN: u64 = 2;

/// The ints over a store that passes so many calls more, and then does such a front of a long write.
fn fused(alloc: Global, passed: u64, front: usize) -> Option<NcFile<FuseStore<MemStore>>> {
    let inner = MemStore::new(file_of(alloc, &INTS).ok()?);
    let store = FuseStore::with_front(inner, passed.saturating_add(TO_OPEN), front);
    open(alloc, store, LIMIT).ok()
}

/// What is answered to 2 records more where so many calls pass, a sync first and then 4 for each; how many records the
/// file has then, and how many the store, where the count is the third call of the four.
fn wanted(passed: u64) -> (Result<(), AppendError>, u64, u64) {
    let settled = passed.saturating_sub(1).min(8);
    let answer = if settled < 8 { Err(Device) } else { Ok(()) };
    let added = settled / 4;
    let held = settled.saturating_add(1) / 4;
    (answer, added + 1, held + 1)
}

/// Whether all is so. After a failure the object answers Reopen, whatever it is asked.
fn is_so(alloc: Global, passed: u64, front: usize) -> Option<bool> {
    let (answer, records, there) = wanted(passed);
    let mut file = fused(alloc, passed, front)?;
    let slabs = fill_record(alloc, &file).ok()?;
    let first = extend(alloc, &mut file, 2);
    let counted = file.records();
    if answer.is_err() {
        let reopen = Err(Reopen);
        let again = extend(alloc, &mut file, 1) == reopen
            && append(alloc, &mut file, slabs.as_slice()) == reopen
            && append(alloc, &mut file, &[]) == reopen
            && extend(alloc, &mut file, 0) == Ok(());
        if !again || file.records() != counted {
            return Some(false);
        }
    }
    let bytes = file.into_store().into_inner().into_bytes();
    Some(first == answer && counted == records && held(alloc, bytes.as_slice()) == Some(there))
}

#[test]
fn each_call_in_turn(rt: HostRuntime) {
    for front in 0..13 {
        for passed in 0..11 {
            let so = is_so(rt.alloc(), passed, front);
            assert!(rt; so == Some(true), "{passed} calls, front {front}");
        }
    }
}

/// The log of 2 records more.
fn logged(alloc: Global) -> Option<LogStore> {
    let store = LogStore::new(alloc, file_of(alloc, &INTS).ok()?);
    let mut file = open(alloc, store, LIMIT).ok()?;
    match extend(alloc, &mut file, 2) {
        Ok(()) => Some(file.into_store()),
        Err(_) => None,
    }
}

/// The bytes with a piece at a place inside them or at their end.
fn with_piece(
    alloc: Global,
    bytes: &[u8],
    place: usize,
    piece: &[u8],
) -> Result<Vec<u8>, AllocError> {
    let (before, rest) = bytes.split_at(place.min(bytes.len()));
    let (_over, behind) = rest.split_at(piece.len().min(rest.len()));
    let mut new = before.to_vec(alloc)?;
    new.extend_from_slice(piece)?;
    new.extend_from_slice(behind)?;
    Ok(new)
}

/// The ints after these calls.
fn after(alloc: Global, calls: &[Call]) -> Result<Vec<u8>, AllocError> {
    let mut bytes = file_of(alloc, &INTS)?;
    for call in calls {
        if let Call::Write(place, piece) = call {
            bytes = with_piece(alloc, bytes.as_slice(), *place as usize, piece.as_slice())?;
        }
    }
    Ok(bytes)
}

/// After each front of the calls the records are there of which the count tells; a record is counted with the third
/// call of its four, and a sync comes first.
#[test]
fn stops_after_each_call(rt: HostRuntime) -> Result<(), Fail> {
    let store = logged(rt.alloc()).expect(&rt, "two records");
    let calls = store.calls();
    assert!(rt; calls.len() == 9);
    for length in 0..=calls.len() {
        let (front, _rest) = calls.split_at(length);
        let bytes = after(rt.alloc(), front)?;
        let records = held(rt.alloc(), bytes.as_slice());
        assert!(rt;
            records == Some(wanted(length as u64).2),
            "after {length} calls"
        );
    }
    Ok(())
}
