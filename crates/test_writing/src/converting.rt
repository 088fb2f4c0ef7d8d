//! Files in another version: sinks that fail, and memory that is refused.

mod memory;

use ncc_check::open;
use ncc_convert::convert;
use ncc_lines::{SendError, Unshown};
use ncc_schema::{FuseSink, Sink, WriteSink};
use ncc_store::MemStore;
use ncc_values::Version;
use ncc_write::planned;
use std::alloc::Global;
use std::test::*;
use test_files::{FIXED, FIXED_IN_CDF_2, LIMIT, bytes_of};

/// Writes the file in the version into the sink; nothing of a file that doesn't pass or can't be planned.
fn convert_to<W: Sink + Drop>(
    alloc: Global,
    bytes: Vec<u8>,
    version: Version,
    sink: W,
) -> Option<(W, Result<(), SendError>)> {
    let Ok(opened) = open(alloc, MemStore::new(bytes), LIMIT) else {
        return None;
    };
    let mut file = opened;
    let Ok(built) = planned(alloc, &file, version) else {
        return None;
    };
    Some(convert(alloc, &mut file, built, sink, &mut Unshown))
}

/// The header goes out by a call, and the values by another: after a failure what went out before stands.
#[test]
fn sinks_that_fail(rt: HostRuntime) -> Result<(), Fail> {
    let alloc = rt.alloc();
    let whole = bytes_of(alloc, &FIXED_IN_CDF_2)?;
    for (calls, length) in [(0, 0), (1, 84), (2, 92)] {
        let bytes = bytes_of(alloc, &FIXED)?;
        let sink = FuseSink::new(WriteSink::new(Vec::new(alloc)), calls, 65_536);
        match convert_to(alloc, bytes, Version::V2, sink) {
            Some((sink, result)) => {
                let wanted = if calls < 2 {
                    Err(SendError::Device)
                } else {
                    Ok(())
                };
                assert!(rt; result == wanted);
                let out = sink.into_inner().into_inner();
                assert!(rt; out.as_slice() == whole.as_slice().split_at(length).0);
            }
            None => assert!(rt; false),
        }
    }
    Ok(())
}
