//! Sinks that take little at a call, and sinks that fail.

use crate::helpers::Step::{Fill, Put};
use crate::helpers::*;
use crate::plans::*;
use ncc_values::XType;
use ncc_write::WriteFault;
use std::process::Abort;
use std::test::*;
use test_files::{TWO_RECORD_VARIABLES, bytes_of};

/// The records of two variables, over a sink that doesn't fail.
const PASSES: [(Step, Result<(), WriteFault>); 4] = [
    (Put(XType::Byte, &[5]), Ok(())),
    (Put(XType::Short, &[0, 7]), Ok(())),
    (Put(XType::Byte, &[6]), Ok(())),
    (Put(XType::Short, &[0, 8]), Ok(())),
];

/// The same, over one that fails where the buffer goes out; from then on every call is refused.
const FAILS: [(Step, Result<(), WriteFault>); 7] = [
    (Put(XType::Byte, &[5]), Ok(())),
    (Put(XType::Short, &[0, 7]), Ok(())),
    (Put(XType::Byte, &[6]), Ok(())),
    (Put(XType::Short, &[0, 8]), Err(WriteFault::Device)),
    (Put(XType::Short, &[0, 8]), Err(WriteFault::Failed)),
    (Put(XType::Int, &[]), Err(WriteFault::Failed)),
    (Fill, Err(WriteFault::Failed)),
];

/// How a file ends, and what went out, where so many calls pass, of at most 3 bytes each: 39 for the header and 6 for
/// the values.
fn after<R: Abort + AllocGlobal>(
    rt: &R,
    calls: u64,
    steps: &[(Step, Result<(), WriteFault>)],
) -> Option<(Option<WriteFault>, Vec<u8>)> {
    match fused(rt.alloc(), &RECORDS_OF_TWO, calls, 3)? {
        Ok(writer) => {
            let mut writer = writer;
            answers(rt, &mut writer, steps);
            Some(ended(writer))
        }
        Err((sink, fault)) => Some((Some(fault), bytes_in(sink))),
    }
}

/// How many bytes so many calls put out, and why the file isn't finished.
fn wanted(calls: u64) -> (usize, Option<WriteFault>) {
    match calls {
        0..=38 => (calls as usize * 3, Some(WriteFault::Device)),
        39..=44 => (116 + (calls as usize - 39) * 3, Some(WriteFault::Failed)),
        _ => (132, None),
    }
}

/// The same by the steps that such a sink passes.
fn after_steps<R: Abort + AllocGlobal>(
    rt: &R,
    calls: u64,
) -> Option<(Option<WriteFault>, Vec<u8>)> {
    if calls < 45 {
        return after(rt, calls, &FAILS);
    }
    after(rt, calls, &PASSES)
}

/// Whether so many calls put out what they should, and nothing else.
fn is_out_after<R: Abort + AllocGlobal>(rt: &R, file: &[u8], calls: u64) -> bool {
    let Some((fault, out)) = after_steps(rt, calls) else {
        return false;
    };
    let (length, wanted) = wanted(calls);
    let (front, _rest) = file.split_at(length.min(file.len()));
    fault == wanted && out.as_slice() == front
}

#[test]
fn each_call_in_turn(rt: HostRuntime) -> Result<(), Fail> {
    let file = bytes_of(rt.alloc(), &TWO_RECORD_VARIABLES)?;
    for calls in 0..48 {
        assert!(rt; is_out_after(&rt, &file, calls), "after {calls}");
    }
    Ok(())
}
