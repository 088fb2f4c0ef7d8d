//! Records that are added to files, byte for byte, and slabs that aren't those of a record.

use crate::open_files::*;
use ncc_check::AppendError;
use ncc_check::AppendError::*;
use ncc_values::XType::{Byte, Char, Int, Short};
use ncc_write::append;
use std::alloc::Global;
use std::test::*;

/// The slabs that are added to a file, what it answers, and the file and its number of records then.
type Row = (File, Slabs, Result<(), AppendError>, File, u64);

/// The shorts 1 2 3 and 9.
const WITH_9: File = File {
    changes: &[(1, 4)],
    data: &[0, 1, 0, 2, 0, 3, 0, 9],
    length: 88,
    ..SHORT_RECORDS
};

/// The ints 1 2 3 and 4 5 6.
const WITH_456: File = File {
    changes: &[(1, 2)],
    data: &[0, 0, 0, 4, 0, 0, 0, 5, 0, 0, 0, 6],
    length: 120,
    ..INTS
};

/// The two variables with 7 and 9 more. What was missing of the padding is zeros.
const WITH_7_AND_9: File = File {
    changes: &[(1, 3), (32, 0x00080000)],
    data: &[7, 0x81, 0x81, 0x81, 0, 9, 0x80, 1],
    length: 140,
    ..TWO
};

/// With a record after the scalar.
const BEHIND_THE_SCALAR: File = File {
    changes: &[(1, 1), (27, 152), (36, 156)],
    data: &[1, 0x81, 0x81, 0x81, 7, 0x81, 0x81, 0x81, 0, 9, 0x80, 1],
    length: 160,
    ..SCALAR_FIRST
};

/// The attribute's value pads nothing: a lone variable's records have no padding.
const WITH_5: File = File {
    changes: &[(1, 1)],
    data: &[0, 5],
    length: 110,
    ..FILLED_BY_7
};

const ADDED: [Row; 5] = [
    (SHORT_RECORDS, &[(Short, &[0, 9])], Ok(()), WITH_9, 4),
    (
        INTS,
        &[(Int, &[0, 0, 0, 4, 0, 0, 0, 5, 0, 0, 0, 6])],
        Ok(()),
        WITH_456,
        2,
    ),
    (
        TWO_MISSING,
        &[(Byte, &[7]), (Short, &[0, 9])],
        Ok(()),
        WITH_7_AND_9,
        3,
    ),
    (
        SCALAR_FIRST,
        &[(Byte, &[7]), (Short, &[0, 9])],
        Ok(()),
        BEHIND_THE_SCALAR,
        1,
    ),
    (FILLED_BY_7, &[(Short, &[0, 5])], Ok(()), WITH_5, 1),
];

/// Slabs that don't fit, of the variables byte a(t) and short b(t).
const WRONG: [(Slabs, usize); 13] = [
    // A slab is missing; none is there; there is one more.
    (&[(Byte, &[7])], 1),
    (&[], 0),
    (&[(Byte, &[7]), (Short, &[0, 9]), (Byte, &[7])], 2),
    (
        &[(Byte, &[7]), (Short, &[0, 9]), (Byte, &[]), (Byte, &[])],
        2,
    ),
    // Another type, also one of the same size.
    (&[(Short, &[0, 7]), (Short, &[0, 9])], 0),
    (&[(Char, &[7]), (Short, &[0, 9])], 0),
    (&[(Byte, &[7]), (Byte, &[9])], 1),
    (&[(Byte, &[7]), (Int, &[0, 0, 0, 9])], 1),
    // Too many values, too few, and the first of two wrong slabs.
    (&[(Byte, &[7, 7]), (Short, &[0, 9])], 0),
    (&[(Byte, &[7]), (Short, &[0, 9, 0, 9])], 1),
    (&[(Byte, &[]), (Short, &[0, 9])], 0),
    (&[(Byte, &[7]), (Short, &[])], 1),
    (&[(Byte, &[]), (Short, &[])], 0),
];

/// Files that take no record are told before slabs that don't fit.
const REFUSED: [Row; 5] = [
    (
        FIXED_ALONE,
        &[(Byte, &[7])],
        Err(NoRecordVariable),
        FIXED_ALONE,
        0,
    ),
    (FIXED_ALONE, &[], Err(NoRecordVariable), FIXED_ALONE, 0),
    (APART, &[(Short, &[0, 9])], Err(NotPacked), APART, 2),
    (STREAMING, &[(Byte, &[7])], Err(Streaming), STREAMING, 3),
    (
        SHORT_RECORDS,
        &[(Short, &[0, 9, 0, 9])],
        Err(WrongValues(0)),
        SHORT_RECORDS,
        3,
    ),
];

/// Whether the row's file answers so, and is then as it says.
fn is_so(alloc: Global, row: &Row) -> Option<bool> {
    let (before, slabs, answer, after, records) = row;
    let mut file = opened(alloc, before)?;
    let slabs = slabs_of(alloc, *slabs).ok()?;
    let answered = append(alloc, &mut file, slabs.as_slice());
    let counted = file.records();
    let bytes = file.into_store().into_bytes();
    Some(answered == *answer && counted == *records && bytes == file_of(alloc, after).ok()?)
}

#[test]
fn records_are_added(rt: HostRuntime) {
    for (number, row) in ADDED.iter().enumerate() {
        assert!(rt; is_so(rt.alloc(), row) == Some(true), "row {number}");
    }
}

/// Neither the file nor the object is changed.
#[test]
fn wrong_slabs(rt: HostRuntime) {
    for (number, (slabs, wrong)) in WRONG.iter().enumerate() {
        for before in [TWO, TWO_MISSING] {
            let row = (before, *slabs, Err(WrongValues(*wrong)), before, 2);
            assert!(rt; is_so(rt.alloc(), &row) == Some(true), "row {number}");
        }
        let row = (
            SCALAR_FIRST,
            *slabs,
            Err(WrongValues(*wrong)),
            SCALAR_FIRST,
            0,
        );
        assert!(rt;
            is_so(rt.alloc(), &row) == Some(true),
            "row {number}, behind a scalar"
        );
    }
}

#[test]
fn file_is_judged_first(rt: HostRuntime) {
    for (number, row) in REFUSED.iter().enumerate() {
        assert!(rt; is_so(rt.alloc(), row) == Some(true), "row {number}");
    }
}
