//! Open files in tables, and the slabs of a record.

use crate::helpers::values_of;
use ncc_check::{NcFile, check, open};
use ncc_store::{MemStore, Store};
use ncc_values::{Values, XType};
use std::alloc::{AllocError, Global};
use test_files::*;

/// A file: words, of which some are others, with bytes after them, up to a length.
#[derive(Clone, Copy)]
pub struct File {
    pub words: &'static [u32],
    /// Words by their number.
    pub changes: &'static [(usize, u32)],
    pub data: &'static [u8],
    pub length: usize,
}

/// The slabs of a record, by the bytes of their elements.
pub type Slabs = &'static [(XType, &'static [u8])];

/// The variable short v(t), of records 1 2 3.
pub const SHORT_RECORDS: File = File {
    words: &RECORDS,
    changes: &[],
    data: &RECORDS_DATA,
    length: 86,
};

/// The variable int v(t, x), with x of length 3, of one record 1 2 3.
pub const INTS: File = File {
    words: &INT_RECORDS,
    changes: &[],
    data: &[],
    length: 108,
};

/// The variables byte a(t) and short b(t), of 2 records.
pub const TWO: File = File {
    words: &TWO_RECORD_VARIABLES,
    changes: &[],
    data: &[],
    length: 132,
};

/// The same, of which the last two bytes are missing.
pub const TWO_MISSING: File = File {
    words: &TWO_RECORD_VARIABLES,
    changes: &[],
    data: &[],
    length: 130,
};

/// The same, where b begins after more than a's padding.
pub const APART: File = File {
    words: &TWO_RECORD_VARIABLES,
    changes: &[(28, 122)],
    data: &[],
    length: 132,
};

/// The shorts, still written.
pub const STREAMING: File = File {
    words: &RECORDS,
    changes: &[(1, 0xffffffff)],
    data: &RECORDS_DATA,
    length: 86,
};

/// A fixed variable alone.
pub const FIXED_ALONE: File = File {
    words: &TINY,
    changes: &[],
    data: &[],
    length: 92,
};

/// The scalar byte s, and the variables byte a(t) and short b(t) without records.
pub const SCALAR_FIRST: File = File {
    words: &SCALAR_AND_RECORDS,
    changes: &[(27, 152), (36, 156)],
    data: &[1, 0x81, 0x81, 0x81],
    length: 152,
};

/// The variable short v(t) without records, with the attribute `_FillValue`, a short 7.
const FILLED: [u32; 27] = [
    0x43444601, 0, 0x0a, 1, 1, 0x74000000, 0, 0, 0, 0x0b, 1, 1, 0x76000000, 1, 0, 0x0c, 1, 10,
    0x5f46696c, 0x6c56616c, 0x75650000, 3, 1, 0x00070000, 3, 4, 108,
];

pub const FILLED_BY_7: File = File {
    words: &FILLED,
    changes: &[],
    data: &[],
    length: 108,
};

/// The words as they are changed.
fn changed(alloc: Global, file: &File) -> Result<Vec<u32>, AllocError> {
    let mut words = file.words.to_vec(alloc)?;
    for (number, word) in file.changes {
        if let Some(there) = words.get_mut(*number) {
            *there = *word;
        }
    }
    Ok(words)
}

/// The bytes of the file, or as many as stand there.
pub fn file_of(alloc: Global, file: &File) -> Result<Vec<u8>, AllocError> {
    let words = changed(alloc, file)?;
    let mut bytes = bytes_of(alloc, words.as_slice())?;
    bytes.extend_from_slice(file.data)?;
    bytes.truncate(file.length);
    Ok(bytes)
}

/// The open file.
pub fn opened(alloc: Global, file: &File) -> Option<NcFile<MemStore>> {
    open(alloc, MemStore::new(file_of(alloc, file).ok()?), LIMIT).ok()
}

/// The values of slabs.
pub fn slabs_of(alloc: Global, slabs: Slabs) -> Result<Vec<Values>, AllocError> {
    let mut all = Vec::new(alloc);
    for (xtype, bytes) in slabs {
        all.push(values_of(alloc, *xtype, *bytes)?)?;
    }
    Ok(all)
}

/// The number of records, where the bytes pass.
pub fn records_in(alloc: Global, bytes: &[u8]) -> Option<u64> {
    let mut store = MemStore::new(bytes.to_vec(alloc).ok()?);
    match check(alloc, &mut store, LIMIT) {
        Ok(report) => Some(report.records),
        Err(_) => None,
    }
}
