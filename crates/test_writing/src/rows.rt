//! Small files, byte for byte, and what is refused on the way.

use crate::helpers::file_by;
use crate::tables::*;
use std::alloc::{AllocError, Global};
use std::process::Abort;
use std::test::*;
use test_files::bytes_of;

const ROWS: [Row; 8] = [
    IN_CDF_1, IN_CDF_2, IN_CDF_5, FILLED, EMPTY_FILE, LONE, IN_TURN, OF_CDF_5,
];

/// The row's file.
fn file_of(alloc: Global, row: &Row) -> Result<Vec<u8>, AllocError> {
    let (header, _rest) = row.words.split_at(row.header.min(row.words.len()));
    let mut bytes = bytes_of(alloc, header)?;
    bytes.extend_from_slice(row.data)?;
    Ok(bytes)
}

/// Whether the row's steps, each with its answer, write its file.
fn is_written<R: Abort + AllocGlobal>(rt: &R, row: &Row) -> bool {
    let written = file_by(rt, &row.plan, row.steps);
    written.is_some() && written == file_of(rt.alloc(), row).ok()
}

#[test]
fn files(rt: HostRuntime) {
    for row in &ROWS {
        assert!(rt; is_written(&rt, row), "{}", row.name);
    }
}
