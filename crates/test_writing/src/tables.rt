//! Files in tables.

use crate::helpers::Step;
use crate::helpers::Step::{Fill, Put};
use crate::plans::*;
use ncc_values::XType;
use ncc_write::WriteFault;
use test_files::*;

/// A file, and the steps by which it is written. It is so many words and the data after them.
#[derive(Clone, Copy)]
pub struct Row {
    pub name: &'static str,
    pub plan: Plan,
    pub steps: &'static [(Step, Result<(), WriteFault>)],
    pub words: &'static [u32],
    pub header: usize,
    pub data: &'static [u8],
}

/// Values 1 and 2, and then 3.
const THREE: [(Step, Result<(), WriteFault>); 2] = [
    (Put(XType::Short, &[0, 1, 0, 2]), Ok(())),
    (Put(XType::Short, &[0, 3]), Ok(())),
];

/// The variable short v(x), with x of length 3.
pub const IN_CDF_1: Row = Row {
    name: "CDF-1",
    plan: SHORTS,
    steps: &THREE,
    words: &FIXED,
    header: 22,
    data: &[],
};

pub const IN_CDF_2: Row = Row {
    name: "CDF-2",
    plan: SHORTS_IN_CDF_2,
    steps: &THREE,
    words: &FIXED_IN_CDF_2,
    header: 23,
    data: &[],
};

pub const IN_CDF_5: Row = Row {
    name: "CDF-5",
    plan: SHORTS_IN_CDF_5,
    steps: &THREE,
    words: &FIXED_IN_CDF_5,
    header: 34,
    data: &[],
};

/// What is refused changes nothing, and what is left is filled.
pub const FILLED: Row = Row {
    name: "filled",
    plan: SHORTS,
    steps: &[
        (Put(XType::Int, &[0, 0, 0, 1]), Err(WriteFault::WrongType)),
        (Put(XType::Int, &[0; 16]), Err(WriteFault::WrongType)),
        (Put(XType::Short, &[0, 1, 0, 2]), Ok(())),
        (Put(XType::Int, &[]), Err(WriteFault::WrongType)),
        (
            Put(XType::Short, &[0, 3, 0, 4]),
            Err(WriteFault::TooManyValues),
        ),
        (Put(XType::Short, &[]), Ok(())),
        (Fill, Ok(())),
        (Put(XType::Int, &[]), Err(WriteFault::Complete)),
        (Fill, Ok(())),
    ],
    words: &FIXED,
    header: 20,
    data: &[0, 1, 0, 2, 0x80, 1, 0x80, 1],
};

/// A file without values is complete at once.
pub const EMPTY_FILE: Row = Row {
    name: "empty",
    plan: NOTHING,
    steps: &[(Put(XType::Short, &[]), Err(WriteFault::Complete))],
    words: &EMPTY,
    header: 8,
    data: &[],
};

/// The records of a lone variable have no padding.
pub const LONE: Row = Row {
    name: "records of one variable",
    plan: RECORDS_OF_ONE,
    steps: &[
        (Put(XType::Short, &[0, 1]), Ok(())),
        (
            Put(XType::Short, &[0, 2, 0, 3]),
            Err(WriteFault::TooManyValues),
        ),
        (Put(XType::Short, &[0, 2]), Ok(())),
        (Put(XType::Short, &[0, 3]), Ok(())),
    ],
    words: &RECORDS,
    header: 20,
    data: &RECORDS_DATA,
};

/// Record by record, one variable after the other.
pub const IN_TURN: Row = Row {
    name: "records of two variables",
    plan: RECORDS_OF_TWO,
    steps: &[
        (Put(XType::Char, &[5]), Err(WriteFault::WrongType)),
        (Put(XType::Byte, &[5]), Ok(())),
        (Put(XType::Byte, &[6]), Err(WriteFault::WrongType)),
        (Put(XType::Short, &[0, 7]), Ok(())),
        (Put(XType::Byte, &[6]), Ok(())),
        (Put(XType::Short, &[0, 8]), Ok(())),
    ],
    words: &TWO_RECORD_VARIABLES,
    header: 33,
    data: &[],
};

/// The header of ubyte v(x), with x of length 3.
const UBYTES_HEADER: [u32; 32] = [
    0x43444605, 0, 0, 0x0a, 0, 1, 0, 1, 0x78000000, 0, 3, 0, 0, 0, 0x0b, 0, 1, 0, 1, 0x76000000, 0,
    1, 0, 0, 0, 0, 0, 7, 0, 4, 0, 0x80,
];

/// A type of CDF-5, padded with its own fill value.
pub const OF_CDF_5: Row = Row {
    name: "ubyte",
    plan: UBYTES,
    steps: &[(Put(XType::UByte, &[1, 2, 3]), Ok(()))],
    words: &UBYTES_HEADER,
    header: 32,
    data: &[1, 2, 3, 0xff],
};
