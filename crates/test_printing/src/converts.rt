//! Files that are converted: what goes out where a store or a sink fails.

use ncc_check::{NcFile, open};
use ncc_engines::{Answer, convert_engine, plan};
use ncc_header::{FuseSink, WriteSink};
use ncc_lines::Unshown;
use ncc_store::{FuseStore, MemStore};
use ncc_values::Version;
use std::alloc::{AllocError, Global};
use std::test::*;
use test_files::{FIXED, FIXED_IN_CDF_2, LIMIT, bytes_of};

/// A file with one dimension and one variable by these bytes, over a store that passes so many calls.
fn file_of(
    alloc: Global,
    bytes: Vec<u8>,
    calls: u64,
) -> Result<NcFile<FuseStore<MemStore>>, AllocError> {
    match open(alloc, FuseStore::new(MemStore::new(bytes), calls), LIMIT) {
        Ok(file) => Ok(file),
        Err(_) => Err(AllocError),
    }
}

/// What a conversion to CDF-2 comes to, and what went out, over a store and a sink that pass so many calls.
fn converted(alloc: Global, reads: u64, writes: u64) -> Option<(Answer, Vec<u8>)> {
    // To open the file takes two calls.
    let mut file = file_of(alloc, bytes_of(alloc, &FIXED).ok()?, reads.wrapping_add(2)).ok()?;
    let mut text = WriteSink::new(Vec::new(alloc));
    let built = plan(alloc, &file, Version::V2, &mut text).ok()?;
    let sink = FuseSink::new(WriteSink::new(Vec::new(alloc)), writes, 65_536);
    let (sink, answer) = convert_engine(alloc, &mut file, built, sink, &mut Unshown);
    Some((answer, sink.into_inner().into_inner()))
}

/// Calls of the store and of the sink that pass, the answer, and how many bytes of the file went out.
const FAILURES: [(u64, u64, Answer, usize); 5] = [
    (0, 0, Answer::Device, 0),
    (0, 2, Answer::Device, 84),
    (1, 1, Answer::Device, 84),
    (1, 2, Answer::Passed, 92),
    (9, 9, Answer::Passed, 92),
];

#[test]
fn devices_that_fail(rt: HostRuntime) -> Result<(), Fail> {
    let whole = bytes_of(rt.alloc(), &FIXED_IN_CDF_2)?;
    for (reads, writes, answer, length) in FAILURES {
        match converted(rt.alloc(), reads, writes) {
            Some((given, out)) => {
                assert!(rt; given == answer, "{reads} reads, {writes} writes");
                assert!(rt; out.as_slice() == whole.as_slice().split_at(length.min(whole.len())).0);
            }
            None => assert!(rt; false),
        }
    }
    Ok(())
}
