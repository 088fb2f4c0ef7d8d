//! A file of several pages, in puts of other lengths: what goes out, and by which calls of the sink.

use crate::helpers::*;
use crate::plans::*;
use ncc_values::XType;
use ncc_write::{FileWriter, WriteFault};
use std::alloc::{AllocError, Global};
use std::test::*;
use test_files::bytes_of;

/// The header of int v(x), with x of length 100,000.
const HEADER: [u32; 20] = [
    0x43444601, 0, 0x0a, 1, 1, 0x78000000, 100_000, 0, 0, 0x0b, 1, 1, 0x76000000, 1, 0, 0, 0, 4,
    400_000, 80,
];

/// All values by one put, and by three.
const ONE: [(u32, u32); 1] = [(0, 100_000)];

const THREE: [(u32, u32); 3] = [(0, 1), (1, 70_001), (70_001, 100_000)];

/// Adds the ints from `first` on, up to `end`.
fn add_ints(bytes: &mut Vec<u8>, first: u32, end: u32) -> Result<(), AllocError> {
    for value in first..end {
        bytes.extend_from_slice(&value.to_be_bytes())?;
    }
    Ok(())
}

/// The file whose values tell their places.
fn long_file(alloc: Global) -> Result<Vec<u8>, AllocError> {
    let mut bytes = bytes_of(alloc, &HEADER)?;
    add_ints(&mut bytes, 0, 100_000)?;
    Ok(bytes)
}

fn put_ints(
    alloc: Global,
    writer: &mut FileWriter<Fused>,
    first: u32,
    end: u32,
) -> Result<(), WriteFault> {
    let mut bytes = Vec::new(alloc);
    add_ints(&mut bytes, first, end)?;
    put(alloc, writer, XType::Int, &bytes)
}

/// Puts these ranges, until one is refused.
fn put_all(
    alloc: Global,
    writer: &mut FileWriter<Fused>,
    ranges: &[(u32, u32)],
) -> Result<(), WriteFault> {
    for (first, end) in ranges {
        put_ints(alloc, writer, *first, *end)?;
    }
    Ok(())
}

/// How the puts and the file end, and what went out then, where the sink passes so many calls.
fn after(
    alloc: Global,
    calls: u64,
    ranges: &[(u32, u32)],
) -> Option<(Result<(), WriteFault>, Option<WriteFault>, Vec<u8>)> {
    match fused(alloc, &LONG, calls, u64::MAX)? {
        Ok(writer) => {
            let mut writer = writer;
            let answer = put_all(alloc, &mut writer, ranges);
            let (fault, out) = ended(writer);
            Some((answer, fault, out))
        }
        Err((sink, fault)) => Some((Err(fault), None, bytes_in(sink))),
    }
}

/// How many bytes went out by so many calls: the header, then pages that end at multiples of 65,536, then the rest.
fn out_after(calls: u64) -> usize {
    match calls {
        0 => 0,
        1 => 80,
        2..=7 => (calls as usize - 1).saturating_mul(65_536),
        _ => 400_080,
    }
}

/// Whether so many calls put out what they should: the header at the start, and whole pages. The eighth call is the
/// last one, and the end needs none.
fn is_out_after(alloc: Global, file: &[u8], calls: u64, ranges: &[(u32, u32)]) -> bool {
    let Some((answer, fault, out)) = after(alloc, calls, ranges) else {
        return false;
    };
    let (front, _rest) = file.split_at(out_after(calls).min(file.len()));
    let ends = match calls {
        0 => (Err(WriteFault::Device), None),
        1..=7 => (Err(WriteFault::Device), Some(WriteFault::Failed)),
        _ => (Ok(()), None),
    };
    (answer, fault) == ends && out.as_slice() == front
}

#[test]
fn goes_out_by_pages(rt: HostRuntime) -> Result<(), Fail> {
    let file = long_file(rt.alloc())?;
    for calls in 0..10 {
        assert!(rt;
            is_out_after(rt.alloc(), &file, calls, &ONE),
            "after {calls}"
        );
        assert!(rt;
            is_out_after(rt.alloc(), &file, calls, &THREE),
            "after {calls}"
        );
    }
    Ok(())
}
