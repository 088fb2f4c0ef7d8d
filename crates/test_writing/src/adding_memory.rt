//! Records that are added where memory may be refused. scripts/refuse_test_memory.sh refuses one allocation after
//! another.

use crate::open_files::*;
use ncc_check::{AppendError, NcFile, open};
use ncc_store::MemStore;
use ncc_values::Values;
use ncc_values::XType::{Byte, Short};
use ncc_write::{append, extend, fill_record};
use std::alloc::{AllocError, Global};
use std::process::Abort;
use std::test::*;
use test_files::LIMIT;

/// The bytes in memory that has room for some records more, so that the store needs none.
fn with_room(alloc: Global, bytes: &[u8]) -> Result<Vec<u8>, AllocError> {
    let mut roomy = Vec::with_capacity(alloc, bytes.len().saturating_add(64))?;
    roomy.extend_from_slice(bytes)?;
    Ok(roomy)
}

/// The open file of two record variables, its bytes, and the slabs of a record.
fn stand(alloc: Global) -> Option<(NcFile<MemStore>, Vec<u8>, Vec<Values>)> {
    let bytes = file_of(alloc, &TWO).ok()?;
    let slabs = slabs_of(alloc, &[(Byte, &[7]), (Short, &[0, 9])]).ok()?;
    let store = MemStore::new(with_room(alloc, bytes.as_slice()).ok()?);
    Some((open(alloc, store, LIMIT).ok()?, bytes, slabs))
}

/// The file has so many records where it took some. Else memory was refused, nothing was changed, and it takes some yet.
fn has_taken<R: Abort>(
    rt: &R,
    answer: Result<(), AppendError>,
    file: NcFile<MemStore>,
    bytes: &[u8],
    records: u64,
) {
    if answer.is_ok() {
        assert!(rt; file.records() == records);
        return;
    }
    assert!(rt; answer == Err(AppendError::Memory));
    assert!(rt; file.records() == 2);
    assert!(rt; file.appendable() == Ok(()));
    assert!(rt; file.into_store().into_bytes().as_slice() == bytes);
}

#[test]
fn appends_without_memory(rt: HostRuntime) {
    let alloc = rt.alloc();
    if let Some((mut file, bytes, slabs)) = stand(alloc) {
        let answer = append(alloc, &mut file, slabs.as_slice());
        has_taken(&rt, answer, file, bytes.as_slice(), 3);
    }
}

#[test]
fn extends_without_memory(rt: HostRuntime) {
    let alloc = rt.alloc();
    if let Some((mut file, bytes, _slabs)) = stand(alloc) {
        let answer = extend(alloc, &mut file, 3);
        has_taken(&rt, answer, file, bytes.as_slice(), 5);
    }
}

/// What is refused for another reason needs no memory.
#[test]
fn refuses_without_memory(rt: HostRuntime) {
    let alloc = rt.alloc();
    if let Some((mut file, bytes, _slabs)) = stand(alloc) {
        assert!(rt; append(alloc, &mut file, &[]) == Err(AppendError::WrongValues(0)));
        assert!(rt; extend(alloc, &mut file, 0) == Ok(()));
        assert!(rt; file.into_store().into_bytes() == bytes);
    }
}

#[test]
fn makes_fill_values_without_memory(rt: HostRuntime) {
    let alloc = rt.alloc();
    if let Some((file, bytes, _slabs)) = stand(alloc) {
        if let Ok(fills) = fill_record(alloc, &file) {
            assert!(rt; fills.len() == 2);
        }
        assert!(rt; file.into_store().into_bytes() == bytes);
    }
}
