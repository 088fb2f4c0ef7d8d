//! Sheets whose values are read in two parts.

use super::helpers::{TEXTS, slab};
use ncc_check::open;
use ncc_csv::send_sheet;
use ncc_header::WriteSink;
use ncc_lines::{FloatStyle, Progress, SendError};
use ncc_store::MemStore;
use std::alloc::{AllocError, Global};
use std::test::*;
use test_files::{FIXED_IN_CDF_5, LIMIT, bytes_of};

/// What was told of the work: how often, first and last.
#[derive(Clone, Copy, Debug, PartialEq, Eq)]
struct Told {
    times: u64,
    first: (u64, u64),
    last: (u64, u64),
}

impl Progress for Told {
    fn rows(&mut self, done: u64, all: u64) {
        if self.times == 0 {
            self.first = (done, all);
        }
        self.times = self.times.saturating_add(1);
        self.last = (done, all);
    }

    fn bytes(&mut self, _more: u64, _all: u64) {}

    fn end(&mut self) {}
}

/// The variable double v(x) of 8,193 zeros: one more than a part has.
fn zeros(alloc: Global) -> Result<Vec<u8>, AllocError> {
    let mut words = FIXED_IN_CDF_5;
    words[10] = 8_193;
    words[27] = 6;
    words[29] = 65_544;
    let mut bytes = bytes_of(alloc, &words)?;
    bytes.truncate(128);
    bytes.resize(128 + 65_544, 0)?;
    Ok(bytes)
}

/// The sheet of a selection of the variable of a file, with the answer and what was told.
fn sheet_of(
    alloc: Global,
    bytes: Vec<u8>,
    lists: [&[u64]; 3],
    texts: bool,
) -> Result<Option<(Result<bool, SendError>, Told, Vec<u8>)>, AllocError> {
    let mut told = Told {
        times: 0,
        first: (0, 0),
        last: (0, 0),
    };
    let slab = slab(alloc, lists)?;
    match open(alloc, MemStore::new(bytes), LIMIT) {
        Ok(file) => {
            let mut file = file;
            let mut sink = WriteSink::new(Vec::new(alloc));
            let answer = send_sheet(
                alloc,
                &mut file,
                0,
                &slab,
                FloatStyle::Bits,
                texts,
                &mut sink,
                &mut told,
            );
            Ok(Some((answer, told, sink.into_inner())))
        }
        Err(_) => Ok(None),
    }
}

/// How many lines there are.
fn lines_in(text: &[u8]) -> usize {
    let mut lines = 0usize;
    for byte in text {
        if *byte == b'\n' {
            lines = lines.saturating_add(1);
        }
    }
    lines
}

#[test]
fn two_parts(rt: HostRuntime) -> Result<(), Fail> {
    let lists: [&[u64]; 3] = [&[0], &[8_193], &[1]];
    let sheet = sheet_of(rt.alloc(), zeros(rt.alloc())?, lists, false)?;
    let (answer, told, sent) = sheet.expect(&rt, "it passes");
    assert!(rt; answer == Ok(true));
    assert!(rt; told.times == 2);
    assert!(rt; told.first == (8_192, 8_193));
    assert!(rt; told.last == (8_193, 8_193));
    assert!(rt; lines_in(&sent) == 8_194);
    assert!(rt; sent.starts_with(b"x,v\n0,0x0000000000000000\n1,0x0000000000000000\n"));
    let end = b"\n8191,0x0000000000000000\n8192,0x0000000000000000\n";
    assert!(rt; sent.ends_with(end));
    Ok(())
}

/// The variable char c(y, x), with x of length 3 and y of length 21,847: the letters from a to z over and over. Of the
/// 65,541 the first part ends in the middle of a text.
fn letters(alloc: Global) -> Result<Vec<u8>, AllocError> {
    let mut words = TEXTS;
    words[6] = 21_847;
    words[9] = 3;
    words[22] = 65_544;
    let mut bytes = bytes_of(alloc, &words)?;
    bytes.truncate(96);
    for _ in 0..2_521 {
        bytes.extend_from_slice(b"abcdefghijklmnopqrstuvwxyz")?;
    }
    bytes.truncate(96 + 65_544);
    Ok(bytes)
}

#[test]
fn a_text_in_two_parts(rt: HostRuntime) -> Result<(), Fail> {
    let lists: [&[u64]; 3] = [&[0, 0], &[21_847, 3], &[1, 1]];
    let sheet = sheet_of(rt.alloc(), letters(rt.alloc())?, lists, true)?;
    let (answer, told, sent) = sheet.expect(&rt, "it passes");
    assert!(rt; answer == Ok(true));
    assert!(rt; told.times == 2);
    assert!(rt; told.first == (65_536, 65_541));
    assert!(rt; told.last == (65_541, 65_541));
    assert!(rt; lines_in(&sent) == 21_848);
    assert!(rt; sent.starts_with(b"y,c\n0,abc\n1,def\n2,ghi\n"));
    assert!(rt; sent.ends_with(b"\n21844,mno\n21845,pqr\n21846,stu\n"));
    Ok(())
}
