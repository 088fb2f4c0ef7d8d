//! What `list` and `check` say of a file.

use ncc_csv::{Pick, parse_list};
use ncc_engines::{Answer, list_engine};
use ncc_header::{ReadSource, Seq, WriteSink};
use ncc_lines::FloatStyle;
use std::alloc::{AllocError, Global};
use std::process::Abort;

/// What `list` says of it.
pub const ATTRIBUTES_TEXT: &str = "format CDF-1
records 0
dimension 0  2
attribute global n short 0
variable 0 s double fixed begin 184 dims 0
attribute 0 u int 2 -1 7
attribute 0 e char 0
variable 1 v byte fixed begin 192 dims 1 
attribute 1 c char 3 a\\x5c\\x20
";

/// A header with a note of each kind: its number of records, the padding of x, the other x, the empty list of
/// attributes, the name `/`, and of its two variables the vsize, the begin, and the order of the begins.
pub const EACH_NOTE: [u32; 31] = [
    0x43444601, 0x80000000, 0x0a, 2, 1, 0x78000001, 3, 1, 0x78000000, 4, 0x0c, 0, 0x0b, 2, 1,
    0x2f000000, 0, 0, 0, 1, 5, 121, 1, 0x62000000, 0, 0, 0, 1, 4, 120, 0,
];

/// What `check` says of it.
pub const EACH_NOTE_TEXT: &str = "ok CDF-1 records 2147483648 variables 2
note LargeCount at 4
note HeaderPadding at 21
note DuplicateName at 28
note TaggedEmpty at 40
note NameRule at 56
note VsizeField at 80
note UnalignedBegin at 84
note Order at 116
";

/// `list` of this input, with headers of at most `limit` bytes, has this answer and text.
pub fn expect_within<R: Abort + AllocGlobal>(
    rt: &R,
    input: &[u8],
    limit: u64,
    answer: Answer,
    text: &str,
) {
    let mut source = ReadSource::new(input);
    let mut sink = WriteSink::new(Vec::new(rt.alloc()));
    assert!(rt; list_engine(rt.alloc(), &mut source, limit, FloatStyle::Bits, &mut sink) == answer);
    let written = sink.into_inner();
    assert!(rt; written.as_slice() == text.as_bytes());
}

/// The numbers of a list that is given, or none where it is empty.
fn numbers(alloc: Global, list: &str) -> Result<Option<Seq<u64>>, AllocError> {
    if list.is_empty() {
        return Ok(None);
    }
    parse_list(alloc, list)
}

/// What is picked by these lists: start, count and stride.
pub fn pick_of(alloc: Global, start: &str, count: &str, stride: &str) -> Result<Pick, AllocError> {
    Ok(Pick {
        start: numbers(alloc, start)?,
        count: numbers(alloc, count)?,
        stride: numbers(alloc, stride)?,
    })
}
