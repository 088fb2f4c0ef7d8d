//! Files of fill values of several pages: how many bytes go out by which call of the sink.

use crate::helpers::*;
use crate::plans::*;
use ncc_write::WriteFault;
use std::alloc::Global;
use std::test::*;

/// A file of fill values, and how many bytes are out after 0, 1, 2 and more calls: the last are all.
type Filled = (Plan, &'static [usize]);

const FILLED: [Filled; 2] = [
    (PAGE, &[0, 80, 65_536]),
    (MANY_RECORDS, &[0, 80, 65_536, 131_072, 196_608, 200_080]),
];

/// How filling ends, and how many bytes went out then, where the sink passes so many calls.
fn filled_after(alloc: Global, plan: &Plan, calls: u64) -> Option<(Option<WriteFault>, usize)> {
    match fused(alloc, plan, calls, u64::MAX)? {
        Ok(writer) => {
            let mut writer = writer;
            let answer = writer.fill_rest().err();
            Some((answer, ended(writer).1.len()))
        }
        Err((sink, fault)) => Some((Some(fault), bytes_in(sink).len())),
    }
}

/// Whether each number of calls puts out as many bytes as it should, and only the last ends the file.
fn is_filled_by_pages(alloc: Global, row: &Filled) -> bool {
    let last = row.1.len().saturating_sub(1);
    for (calls, length) in row.1.iter().enumerate() {
        let fault = if calls < last {
            Some(WriteFault::Device)
        } else {
            None
        };
        if filled_after(alloc, &row.0, calls as u64) != Some((fault, *length)) {
            return false;
        }
    }
    true
}

/// No page goes out early: not at the end of a slab, and none is empty.
#[test]
fn fills_by_pages(rt: HostRuntime) {
    for (number, row) in FILLED.iter().enumerate() {
        assert!(rt; is_filled_by_pages(rt.alloc(), row), "row {number}");
    }
}
