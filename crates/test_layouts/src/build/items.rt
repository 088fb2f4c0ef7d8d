//! What is refused of dimensions, variables and attributes, besides their names.

use super::steps::Step::{Attr, Dim, Global, Var};
use super::steps::*;
use ncc_build::WriteFault::*;
use ncc_values::{Version, XType};
use std::test::*;

const ONE_RECORD_DIMENSION: Row = Row {
    name: "one record dimension",
    version: Version::V1,
    steps: &[
        (Dim(b"x", 2), Ok(0)),
        (Dim(b"t", 0), Ok(1)),
        (Dim(b"u", 0), Err(TwoRecordDims)),
        (Dim(b"u", 3), Ok(2)),
        (Dim(b"t", 0), Err(DuplicateName)),
    ],
    records: 0,
    end: Ok((3, 0, 0, None)),
};

const DIMENSIONS_OF_A_VARIABLE: Row = Row {
    name: "dimensions of a variable",
    version: Version::V1,
    steps: &[
        (Dim(b"t", 0), Ok(0)),
        (Dim(b"x", 2), Ok(1)),
        (Var(b"v", XType::Int, &[2]), Err(BadDimId)),
        (Var(b"v", XType::Int, &[1, 0, 2]), Err(BadDimId)),
        (Var(b"v", XType::Int, &[1, 0]), Err(RecordDimNotFirst)),
        (Var(b"v", XType::UByte, &[0, 0]), Err(RecordDimNotFirst)),
        (Var(b"v", XType::Int, &[0, 1, 1]), Ok(0)),
        (Var(b"w", XType::Int, &[1, 1]), Ok(1)),
    ],
    records: 7,
    end: Ok((2, 0, 2, Some((16, 140)))),
};

const TYPES_OF_CDF_1: Row = Row {
    name: "types of CDF-1",
    version: Version::V1,
    steps: &[
        (Var(b"v", XType::UByte, &[]), Err(TypeForVersion)),
        (Global(b"a", XType::UByte), Err(TypeForVersion)),
        (Var(b"v", XType::Byte, &[]), Ok(0)),
        (Global(b"a", XType::Short), Ok(0)),
    ],
    records: 0,
    end: Ok((0, 1, 1, Some((4, 80)))),
};

const TYPES_OF_CDF_2: Row = Row {
    name: "types of CDF-2",
    version: Version::V2,
    end: Ok((0, 1, 1, Some((4, 84)))),
    ..TYPES_OF_CDF_1
};

const TYPES_OF_CDF_5: Row = Row {
    name: "types of CDF-5",
    version: Version::V5,
    steps: &[
        (Var(b"v", XType::UByte, &[]), Ok(0)),
        (Global(b"a", XType::UByte), Ok(0)),
        (Attr(0, b"a", XType::Int64), Ok(0)),
    ],
    records: 0,
    end: Ok((0, 1, 1, Some((4, 148)))),
};

const LENGTHS_OF_CDF_1: Row = Row {
    name: "lengths of CDF-1",
    version: Version::V1,
    steps: &[
        (Dim(b"x", 1 << 31), Err(CountForVersion)),
        (Dim(b"x", (1 << 31) - 1), Ok(0)),
    ],
    records: 0,
    end: Ok((1, 0, 0, None)),
};

const LENGTHS_OF_CDF_5: Row = Row {
    name: "lengths of CDF-5",
    version: Version::V5,
    steps: &[
        (Dim(b"x", 1 << 31), Ok(0)),
        (Dim(b"y", 1 << 63), Err(CountForVersion)),
        (Dim(b"y", (1 << 63) - 1), Ok(1)),
    ],
    records: 0,
    end: Ok((2, 0, 0, None)),
};

const ROWS: [Row; 7] = [
    ONE_RECORD_DIMENSION,
    DIMENSIONS_OF_A_VARIABLE,
    TYPES_OF_CDF_1,
    TYPES_OF_CDF_2,
    TYPES_OF_CDF_5,
    LENGTHS_OF_CDF_1,
    LENGTHS_OF_CDF_5,
];

#[test]
fn items(rt: HostRuntime) {
    for row in &ROWS {
        assert!(rt; is_so(rt.alloc(), row), "{}", row.name);
    }
}
