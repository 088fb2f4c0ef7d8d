//! Files to which no record can be added.

use crate::files::{File, file_of};
use ncc_check::AppendError::*;
use ncc_check::{AppendError, open};
use ncc_store::LongStore;
use std::alloc::Global;
use std::process::Abort;
use std::test::*;
use test_files::*;

/// The words of a file, some of them changed, its length, and what it answers.
type Row = (
    &'static [u32],
    &'static [(usize, u32)],
    u64,
    Result<(), AppendError>,
);

const ROWS: [Row; 19] = [
    // Records of one variable, and of two.
    (&RECORDS, &[], 86, Ok(())),
    (&RECORDS, &[(1, 0)], 80, Ok(())),
    (&TWO_RECORD_VARIABLES, &[], 132, Ok(())),
    (&TWO_RECORD_VARIABLES, &[], 130, Ok(())),
    // Fixed variables alone.
    (&TINY, &[], 92, Err(NoRecordVariable)),
    (&EMPTY, &[], 32, Err(NoRecordVariable)),
    // The second variable begins 2 bytes after the first one's padding; the first record 4 bytes after the end.
    (&TWO_RECORD_VARIABLES, &[(28, 122)], 132, Err(NotPacked)),
    (&RECORDS, &[(1, 0), (19, 83)], 80, Ok(())),
    (&RECORDS, &[(1, 0), (19, 84)], 80, Err(NotPacked)),
    // The number of records is indeterminate.
    (&RECORDS, &[(1, 0xffffffff)], 86, Err(Streaming)),
    // The next number is below the mark, and the mark.
    (&RECORDS, &[(1, 0xfffffffd)], 8_589_934_666, Ok(())),
    (&RECORDS, &[(1, 0xfffffffe)], 8_589_934_668, Err(CountFull)),
    // The file would have 2^63 - 1 bytes, and 2^63.
    (
        &MOST_RECORDS_IN_CDF_5,
        &[(2, 0xffffff7e)],
        (1 << 63) - 2,
        Ok(()),
    ),
    (&MOST_RECORDS_IN_CDF_5, &[], (1 << 63) - 1, Err(CountFull)),
    // Two reasons: the first in this order is told.
    (&TINY, &[(1, 0xffffffff)], 92, Err(NoRecordVariable)),
    (&TINY, &[(1, 0xfffffffe)], 92, Err(NoRecordVariable)),
    (
        &TWO_RECORD_VARIABLES,
        &[(1, 0xffffffff), (28, 122)],
        132,
        Err(NotPacked),
    ),
    (
        &TWO_RECORD_VARIABLES,
        &[(1, 0xfffffffe), (28, 122)],
        1 << 40,
        Err(NotPacked),
    ),
    (&RECORDS, &[(1, 0xffffffff)], 8_589_934_668, Err(Streaming)),
];

/// What the file answers, where it passes.
fn answer(alloc: Global, file: &File) -> Option<Result<(), AppendError>> {
    let front = file_of(alloc, file).ok()?;
    if (front.len() as u64) > file.length {
        return None;
    }
    let store = LongStore::new(front, file.length);
    match open(alloc, store, LIMIT) {
        Ok(file) => Some(file.appendable()),
        Err(_) => None,
    }
}

#[test]
fn first_reason_is_told(rt: HostRuntime) {
    for (number, (words, changes, length, wanted)) in ROWS.iter().enumerate() {
        let file = File {
            words,
            changes,
            data: &[],
            length: *length,
        };
        assert!(rt; answer(rt.alloc(), &file) == Some(*wanted), "row {number}");
    }
}
