//! A file that has no room for one more record.

use crate::open_files::*;
use ncc_check::{AppendError, NcFile, open};
use ncc_store::LongStore;
use ncc_values::XType::Short;
use ncc_write::{append, extend};
use std::alloc::Global;
use std::test::*;
use test_files::LIMIT;

/// The variable short v(t), of so many records that the next number is the streaming mark.
const FULL: File = File {
    words: &test_files::RECORDS,
    changes: &[(1, 0xfffffffe)],
    data: &[],
    length: 80,
};

const SIZE: u64 = 8_589_934_668;

fn opened_full(alloc: Global) -> Option<NcFile<LongStore>> {
    let front = file_of(alloc, &FULL).ok()?;
    if front.len() as u64 > SIZE {
        return None;
    }
    open(alloc, LongStore::new(front, SIZE), LIMIT).ok()
}

/// The answers to a record, to one without slabs, and to 1, 3 and 0 records of fill values; the number of records then.
fn answers(alloc: Global) -> Option<([Result<(), AppendError>; 5], u64)> {
    let mut file = opened_full(alloc)?;
    let slabs = slabs_of(alloc, &[(Short, &[0, 9])]).ok()?;
    let answers = [
        append(alloc, &mut file, slabs.as_slice()),
        append(alloc, &mut file, &[]),
        extend(alloc, &mut file, 1),
        extend(alloc, &mut file, 3),
        extend(alloc, &mut file, 0),
    ];
    Some((answers, file.records()))
}

#[test]
fn no_room(rt: HostRuntime) {
    let full = Err(AppendError::CountFull);
    assert!(rt; answers(rt.alloc()) == Some(([full, full, full, full, Ok(())], 0xfffffffe)));
}
