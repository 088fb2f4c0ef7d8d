//! Building: the number of records, sizes and places at the limits of each version.

use super::steps::Step::{Dim, Var};
use super::steps::*;
use ncc_build::WriteFault::*;
use ncc_values::{Version, XType};
use std::test::*;

const NOTHING: Row = Row {
    name: "nothing",
    version: Version::V1,
    steps: &[],
    records: 5,
    end: Ok((0, 0, 0, None)),
};

const NOTHING_IN_CDF_2: Row = Row {
    version: Version::V2,
    ..NOTHING
};

const NOTHING_IN_CDF_5: Row = Row {
    version: Version::V5,
    ..NOTHING
};

const MOST_RECORDS: Row = Row {
    name: "most records",
    records: (1 << 31) - 1,
    ..NOTHING
};

const TOO_MANY_RECORDS: Row = Row {
    name: "too many records",
    records: 1 << 31,
    end: Err((CountForVersion, true)),
    ..NOTHING
};

const MANY_RECORDS_IN_CDF_5: Row = Row {
    name: "many records in CDF-5",
    records: 1 << 31,
    ..NOTHING_IN_CDF_5
};

const TOO_MANY_RECORDS_IN_CDF_5: Row = Row {
    name: "too many records in CDF-5",
    records: 1 << 63,
    end: Err((CountForVersion, true)),
    ..NOTHING_IN_CDF_5
};

/// The second variable begins past 2^31.
const BEGIN_IN_CDF_1: Row = Row {
    name: "begin in CDF-1",
    version: Version::V1,
    steps: &[
        (Dim(b"x", 2147483644), Ok(0)),
        (Var(b"a", XType::Byte, &[0]), Ok(0)),
        (Var(b"b", XType::Byte, &[0]), Ok(1)),
    ],
    records: 0,
    end: Err((OffsetForVersion, false)),
};

const BEGIN_IN_CDF_2: Row = Row {
    name: "begin in CDF-2",
    version: Version::V2,
    end: Ok((1, 0, 2, Some((2147483644, 2147483768)))),
    ..BEGIN_IN_CDF_1
};

const BEGIN_IN_CDF_5: Row = Row {
    name: "begin in CDF-5",
    version: Version::V5,
    steps: &[
        (Dim(b"t", 0), Ok(0)),
        (Dim(b"x", 1 << 62), Ok(1)),
        (Var(b"f", XType::Byte, &[1]), Ok(0)),
        (Var(b"a", XType::Byte, &[0, 1]), Ok(1)),
        (Var(b"b", XType::Byte, &[0]), Ok(2)),
    ],
    records: 0,
    end: Err((OffsetForVersion, false)),
};

const GREATEST_SIZE: Row = Row {
    name: "greatest size",
    version: Version::V1,
    steps: &[
        (Dim(b"x", 2147483646), Ok(0)),
        (Var(b"v", XType::Short, &[0]), Ok(0)),
    ],
    records: 0,
    end: Ok((1, 0, 1, Some((4294967292, 80)))),
};

const TOO_GREAT: Row = Row {
    name: "too great",
    version: Version::V1,
    steps: &[
        (Dim(b"x", 2147483647), Ok(0)),
        (Var(b"v", XType::Short, &[0]), Ok(0)),
    ],
    records: 0,
    end: Err((SizeForVersion, false)),
};

/// The number of records is judged before sizes.
const TOO_GREAT_AND_TOO_MANY: Row = Row {
    name: "too great and too many",
    records: 1 << 31,
    end: Err((CountForVersion, false)),
    ..TOO_GREAT
};

const GREAT_IN_CDF_5: Row = Row {
    name: "great in CDF-5",
    version: Version::V5,
    steps: &[
        (Dim(b"x", 536870912), Ok(0)),
        (Var(b"v", XType::Double, &[0]), Ok(0)),
    ],
    records: 0,
    end: Ok((1, 0, 1, Some((4294967296, 128)))),
};

const TOO_GREAT_IN_CDF_2: Row = Row {
    name: "too great in CDF-2",
    version: Version::V2,
    end: Err((SizeForVersion, false)),
    ..GREAT_IN_CDF_5
};

/// A size is judged before the begin of the variable.
const SIZE_AND_BEGIN: Row = Row {
    name: "size and begin",
    version: Version::V1,
    steps: &[
        (Dim(b"x", 2147483647), Ok(0)),
        (Var(b"a", XType::Byte, &[0]), Ok(0)),
        (Var(b"b", XType::Short, &[0]), Ok(1)),
    ],
    records: 0,
    end: Err((SizeForVersion, false)),
};

/// The sum of two slabs of a record.
const GREAT_RECORDS: Row = Row {
    name: "great records",
    version: Version::V5,
    steps: &[
        (Dim(b"t", 0), Ok(0)),
        (Dim(b"x", 1 << 62), Ok(1)),
        (Var(b"a", XType::Byte, &[0, 1]), Ok(0)),
        (Var(b"b", XType::Byte, &[0, 1]), Ok(1)),
    ],
    records: 0,
    end: Err((SizeForVersion, false)),
};

/// The file would be longer than 2^63 - 1 with two records, and isn't with none.
const LONG_FILE: Row = Row {
    name: "long file",
    version: Version::V5,
    steps: &[
        (Dim(b"t", 0), Ok(0)),
        (Dim(b"x", 1 << 62), Ok(1)),
        (Var(b"v", XType::Byte, &[0, 1]), Ok(0)),
    ],
    records: 2,
    end: Err((SizeForVersion, true)),
};

const ROWS: [Row; 18] = [
    NOTHING,
    NOTHING_IN_CDF_2,
    NOTHING_IN_CDF_5,
    MOST_RECORDS,
    TOO_MANY_RECORDS,
    MANY_RECORDS_IN_CDF_5,
    TOO_MANY_RECORDS_IN_CDF_5,
    BEGIN_IN_CDF_1,
    BEGIN_IN_CDF_2,
    BEGIN_IN_CDF_5,
    GREATEST_SIZE,
    TOO_GREAT,
    TOO_GREAT_AND_TOO_MANY,
    GREAT_IN_CDF_5,
    TOO_GREAT_IN_CDF_2,
    SIZE_AND_BEGIN,
    GREAT_RECORDS,
    LONG_FILE,
];

#[test]
fn plans(rt: HostRuntime) {
    for row in &ROWS {
        assert!(rt; is_so(rt.alloc(), row), "{}", row.name);
    }
}
