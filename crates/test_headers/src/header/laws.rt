//! The text of a fault, and that the laws can be called.

use ncc_header::{Fault, FaultKind, HeaderError, laws};
use std::test::*;

#[test]
fn words_of_faults(rt: HostRuntime) -> Result<(), Fail> {
    let text = format!(in rt.alloc();
        "{}",
        HeaderError::Fault(Fault {
            kind: FaultKind::BadTag,
            offset: 8
        })
    )?;
    assert!(rt; text.as_str() == "BadTag at 8");
    Ok(())
}

#[test]
fn laws_are_there() {
    laws::one_header();
    laws::header_or_stop();
    laws::stop_stays();
    laws::limit_covers();
    laws::unmarked_is_canonical();
    laws::canonical_is_unmarked();
    laws::header_is_begun();
    laws::length_is_canonical();
    laws::rewritten_count_is_begun();
}
