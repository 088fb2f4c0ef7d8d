//! Small netCDF classic files in words of four bytes, by which the other crates are tested.
#![tactic(auto)]

ghost use Rattle.std.specs.Prelude.{◌≡◌, ◌*◌, length, vec_len, IfOk};

use std::alloc::{AllocError, Global};

/// The usual limit of a header's length, in bytes.
pub const LIMIT: u64 = 67_108_864;

/// No dimension, no attribute, no variable: the empty file of the standard's section "Examples".
pub const EMPTY: [u32; 8] = [0x43444601, 0, 0, 0, 0, 0, 0, 0];

/// The variable vx(dim) of five shorts, as the standard's section "Examples" dumps it.
pub const TINY: [u32; 23] = [
    0x43444601, 0, 0x0a, 1, 3, 0x64696d00, 5, 0, 0, 0x0b, 1, 2, 0x76780000, 1, 0, 0, 0, 3, 0x0c,
    0x50, 0x00030001, 0x00040001, 0x00058001,
];

/// The variable short v(x), with x of length 3, and its values 1 2 3; the begin is word 19, at offset 76.
pub const FIXED: [u32; 22] = [
    0x43444601, 0, 0x0a, 1, 1, 0x78000000, 3, 0, 0, 0x0b, 1, 1, 0x76000000, 1, 0, 0, 0, 3, 8, 0x50,
    0x00010002, 0x00038001,
];

/// The same in CDF-2.
pub const FIXED_IN_CDF_2: [u32; 23] = [
    0x43444602, 0, 0x0a, 1, 1, 0x78000000, 3, 0, 0, 0x0b, 1, 1, 0x76000000, 1, 0, 0, 0, 3, 8, 0,
    0x54, 0x00010002, 0x00038001,
];

/// The same in CDF-5.
pub const FIXED_IN_CDF_5: [u32; 34] = [
    0x43444605, 0, 0, 0x0a, 0, 1, 0, 1, 0x78000000, 0, 3, 0, 0, 0, 0x0b, 0, 1, 0, 1, 0x76000000, 0,
    1, 0, 0, 0, 0, 0, 3, 0, 8, 0, 0x80, 0x00010002, 0x00038001,
];

/// The variable short v(t) of 3 records, without their values.
pub const RECORDS: [u32; 20] = [
    0x43444601, 3, 0x0a, 1, 1, 0x74000000, 0, 0, 0, 0x0b, 1, 1, 0x76000000, 1, 0, 0, 0, 3, 4, 0x50,
];

/// The values of those records.
pub const RECORDS_DATA: [u8; 6] = [0, 1, 0, 2, 0, 3];

/// The variables byte a(t) and short b(t) of 2 records; b's begin is word 28, at offset 112.
pub const TWO_RECORD_VARIABLES: [u32; 33] = [
    0x43444601, 2, 0x0a, 1, 1, 0x74000000, 0, 0, 0, 0x0b, 2, 1, 0x61000000, 1, 0, 0, 0, 1, 4, 0x74,
    1, 0x62000000, 1, 0, 0, 0, 3, 4, 0x78, 0x05818181, 0x00078001, 0x06818181, 0x00088001,
];

/// The variable int v(t, x), with t the record dimension and x of length 3, and its one record 1 2 3.
pub const INT_RECORDS: [u32; 27] = [
    0x43444601, 1, 0x0a, 2, 1, 0x74000000, 0, 1, 0x78000000, 3, 0, 0, 0x0b, 1, 1, 0x76000000, 2, 0,
    1, 0, 0, 4, 12, 96, 1, 2, 3,
];

/// The same in CDF-5.
pub const INT_RECORDS_IN_CDF_5: [u32; 42] = [
    0x43444605, 0, 1, 0x0a, 0, 2, 0, 1, 0x74000000, 0, 0, 0, 1, 0x78000000, 0, 3, 0, 0, 0, 0x0b, 0,
    1, 0, 1, 0x76000000, 0, 2, 0, 0, 0, 1, 0, 0, 0, 4, 0, 12, 0, 156, 1, 2, 3,
];

/// The variable byte v(t) in CDF-5, of 2^63 - 129 records, without their values: a file of 2^63 - 1 bytes.
pub const MOST_RECORDS_IN_CDF_5: [u32; 32] = [
    0x43444605, 0x7fffffff, 0xffffff7f, 0x0a, 0, 1, 0, 1, 0x74000000, 0, 0, 0, 0, 0, 0x0b, 0, 1, 0,
    1, 0x76000000, 0, 1, 0, 0, 0, 0, 0, 1, 0, 4, 0, 0x80,
];

/// The global attribute title, of the chars hello.
pub const TITLED: [u32; 15] = [
    0x43444601, 0, 0, 0, 0x0c, 1, 5, 0x7469746c, 0x65000000, 2, 5, 0x68656c6c, 0x6f000000, 0, 0,
];

/// A dimension with an empty name, an attribute without values, a scalar with two attributes, and a
/// variable over the dimension with one.
pub const ATTRIBUTES: [u32; 46] = [
    0x43444601, 0, 0x0a, 1, 0, 2, 0x0c, 1, 1, 0x6e000000, 3, 0, 0x0b, 2, 1, 0x73000000, 0, 0x0c, 2,
    1, 0x75000000, 4, 2, 0xffffffff, 7, 1, 0x65000000, 2, 0, 6, 8, 0xb8, 1, 0x76000000, 1, 0, 0x0c,
    1, 1, 0x63000000, 2, 3, 0x615c2000, 1, 4, 0xc0,
];

/// The variable short m(y, x), with y of length 2 and x of length 3.
pub const TABLE: [u32; 24] = [
    0x43444601, 0, 0x0a, 2, 1, 0x79000000, 2, 1, 0x78000000, 3, 0, 0, 0x0b, 1, 1, 0x6d000000, 2, 0,
    1, 0, 0, 3, 12, 96,
];

/// The scalar byte s and the variables byte a(t) and short b(t) without records, with their begins at
/// words 18, 27 and 36, at offsets 72, 108 and 144.
pub const SCALAR_AND_RECORDS: [u32; 37] = [
    0x43444601, 0, 0x0a, 1, 1, 0x74000000, 0, 0, 0, 0x0b, 3, 1, 0x73000000, 0, 0, 0, 1, 4, 148, 1,
    0x61000000, 1, 0, 0, 0, 1, 4, 149, 1, 0x62000000, 1, 0, 0, 0, 3, 4, 151,
];

/// The bytes of words.
pub fn bytes_of(alloc: Global, words: &[u32]) -> Result<Vec<u8>, AllocError>
    ensures { IfOk result (λ bytes. vec_len bytes ≡ 4 * length words.now) }
{
    let mut bytes = Vec::new(alloc);
    for word in words {
        bytes.extend_from_slice(&word.to_be_bytes())?;
    }
    Ok(bytes)
}

/// The bytes of words, with another byte at this offset.
pub fn with_byte(
    alloc: Global,
    words: &[u32],
    offset: usize,
    byte: u8,
) -> Result<Vec<u8>, AllocError>
    ensures { IfOk result (λ bytes. vec_len bytes ≡ 4 * length words.now) }
{
    let mut bytes = bytes_of(alloc, words)?;
    if offset < bytes.len() {
        bytes[offset] = byte;
    }
    Ok(bytes)
}
