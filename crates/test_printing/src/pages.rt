//! How often a sink is called: by pages.

use super::helpers::pick_of;
use ncc_engines::{Answer, csv_engine, list_engine};
use ncc_header::{FuseSink, ReadSource, WriteSink};
use ncc_lines::{FloatStyle, Unshown};
use ncc_store::MemStore;
use std::test::*;
use test_files::{FIXED, LIMIT, bytes_of};

/// What a command comes to whose text takes so many calls of its sink, over one that passes `calls` of them.
fn answer_after(calls: u64, taken: u64) -> Answer {
    if calls < taken {
        Answer::Device
    } else {
        Answer::Passed
    }
}

/// The names go out by one call, and 2,600 rows of an index and a value by two.
#[test]
fn rows_go_out_by_pages(rt: HostRuntime) -> Result<(), Fail> {
    let alloc = rt.alloc();
    let mut words = FIXED;
    (words[6], words[18]) = (2_600, 5_200);
    for calls in 0..4 {
        let mut bytes = bytes_of(alloc, &words)?;
        bytes.resize(80 + 5_200, 0)?;
        let mut sink = FuseSink::new(WriteSink::new(Vec::new(alloc)), calls, 65_536);
        let pick = pick_of(alloc, "", "", "")?;
        let (_, answer) = csv_engine(
            alloc,
            MemStore::new(bytes),
            LIMIT,
            b"v",
            pick,
            FloatStyle::Bits,
            false,
            &mut sink,
            &mut Unshown,
        );
        assert!(rt; answer == answer_after(calls, 3));
    }
    Ok(())
}

/// The lines of a header with an attribute of 100,000 characters go out by two calls.
#[test]
fn lines_go_out_by_pages(rt: HostRuntime) -> Result<(), Fail> {
    let alloc = rt.alloc();
    let mut input = bytes_of(
        alloc,
        &[0x43444601, 0, 0, 0, 0x0c, 1, 1, 0x61000000, 2, 100_000],
    )?;
    input.resize(40 + 100_000, 0x61)?;
    input.resize(40 + 100_000 + 8, 0)?;
    for calls in 0..3 {
        let mut source = ReadSource::new(input.as_slice());
        let mut sink = FuseSink::new(WriteSink::new(Vec::new(alloc)), calls, 65_536);
        let answer = list_engine(alloc, &mut source, LIMIT, FloatStyle::Bits, &mut sink);
        assert!(rt; answer == answer_after(calls, 2));
    }
    Ok(())
}
