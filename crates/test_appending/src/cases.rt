//! Records that are added to files.

use crate::bytes::with_piece;
use crate::files::{File, file_of};
use std::alloc::{AllocError, Global};
use test_files::*;

/// A record that is added to a file.
#[derive(Clone, Copy)]
pub struct Case {
    pub name: &'static str,
    pub file: File,
    pub records: u64,
    pub image: &'static [u8],
    /// The count field as it is then.
    pub count: &'static [u8],
    /// Where the last record ends, or the file does before, and what stands there then.
    pub end: usize,
    pub tail: &'static [u8],
    /// The calls of the store that it takes.
    pub calls: u64,
}

/// The variable short v(t) of 3 records.
pub const SHORTS: Case = Case {
    name: "short v(t)",
    file: File {
        words: &RECORDS,
        changes: &[],
        data: &RECORDS_DATA,
        length: 86,
    },
    records: 3,
    image: &[0, 9],
    count: &[0, 0, 0, 4],
    end: 86,
    tail: &[0, 9],
    calls: 4,
};

/// The same, with bytes after the records.
pub const LONGER: Case = Case {
    name: "bytes after the records",
    file: File {
        words: &RECORDS,
        changes: &[],
        data: &[0, 1, 0, 2, 0, 3, 7, 7, 7, 7, 7],
        length: 91,
    },
    records: 3,
    image: &[0, 9],
    count: &[0, 0, 0, 4],
    end: 86,
    tail: &[0, 9],
    calls: 4,
};

/// The same of no record, which begins after the end of the file.
pub const NONE_YET: Case = Case {
    name: "no record yet",
    file: File {
        words: &RECORDS,
        changes: &[(1, 0), (19, 83)],
        data: &[],
        length: 80,
    },
    records: 0,
    image: &[0, 9],
    count: &[0, 0, 0, 1],
    end: 80,
    tail: &[0, 0, 0, 0, 9],
    calls: 5,
};

/// The variable int v(t, x), with x of length 3, of one record.
pub const INTS: Case = Case {
    name: "int v(t, x)",
    file: File {
        words: &INT_RECORDS,
        changes: &[],
        data: &[],
        length: 108,
    },
    records: 1,
    image: &[0, 0, 0, 4, 0, 0, 0, 5, 0, 0, 0, 6],
    count: &[0, 0, 0, 2],
    end: 108,
    tail: &[0, 0, 0, 4, 0, 0, 0, 5, 0, 0, 0, 6],
    calls: 4,
};

/// The same in CDF-5, whose count has 8 bytes.
pub const INTS_IN_CDF_5: Case = Case {
    name: "int v(t, x) in CDF-5",
    file: File {
        words: &INT_RECORDS_IN_CDF_5,
        changes: &[],
        data: &[],
        length: 168,
    },
    records: 1,
    image: &[0, 0, 0, 4, 0, 0, 0, 5, 0, 0, 0, 6],
    count: &[0, 0, 0, 0, 0, 0, 0, 2],
    end: 168,
    tail: &[0, 0, 0, 4, 0, 0, 0, 5, 0, 0, 0, 6],
    calls: 4,
};

/// The variables byte a(t) and short b(t) of 2 records, of which the last padding is missing.
pub const TWO_MISSING: Case = Case {
    name: "two bytes are missing",
    file: File {
        words: &TWO_RECORD_VARIABLES,
        changes: &[],
        data: &[],
        length: 130,
    },
    records: 2,
    image: &[0x81, 0x81, 0x81, 0x81, 0x80, 1, 0x80, 1],
    count: &[0, 0, 0, 3],
    end: 130,
    tail: &[0, 0, 0x81, 0x81, 0x81, 0x81, 0x80, 1, 0x80, 1],
    calls: 5,
};

/// All of them.
pub const CASES: [Case; 6] = [SHORTS, LONGER, NONE_YET, INTS, INTS_IN_CDF_5, TWO_MISSING];

/// The bytes with the record more.
pub fn added(alloc: Global, case: &Case) -> Result<Vec<u8>, AllocError> {
    let old = file_of(alloc, &case.file)?;
    let new = with_piece(alloc, &old, case.end, case.tail)?;
    with_piece(alloc, &new, 4, case.count)
}
