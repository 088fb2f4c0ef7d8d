//! Headers that are listed within a limit.

use super::helpers::expect_within;
use ncc_engines::Answer;
use std::test::*;
use test_files::{EMPTY, bytes_of};

#[test]
fn limits(rt: HostRuntime) -> Result<(), Fail> {
    let empty = bytes_of(rt.alloc(), &EMPTY)?;
    let line = "fault HeaderTooLong at 28\n";
    expect_within(&rt, &empty, 31, Answer::Refused, line);
    let text = "format CDF-1\nrecords 0\n";
    expect_within(&rt, &empty, 32, Answer::Passed, text);
    Ok(())
}
