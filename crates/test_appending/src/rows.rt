//! Files with one more record, byte for byte.

use crate::cases::*;
use crate::files::file_of;
use crate::helpers::*;
use ncc_check::{NcFile, open};
use ncc_store::MemStore;
use std::alloc::Global;
use std::process::Abort;
use std::test::*;
use test_files::LIMIT;

fn opened(alloc: Global, case: &Case) -> Option<NcFile<MemStore>> {
    let store = MemStore::new(file_of(alloc, &case.file).ok()?);
    open(alloc, store, LIMIT).ok()
}

/// The bytes once the record is added.
fn bytes_with<R: Abort + AllocGlobal>(rt: &R, case: &Case) -> Option<Vec<u8>> {
    let mut file = opened(rt.alloc(), case)?;
    assert!(rt; file.records() == case.records);
    assert!(rt; answers(&mut file, case.image) == (Ok(()), Ok(())));
    assert!(rt; Some(file.records()) == case.records.checked_add(1));
    Some(file.into_store().into_bytes())
}

/// Whether those are the bytes that they should be.
fn is_added<R: Abort + AllocGlobal>(rt: &R, case: &Case) -> Result<bool, Fail> {
    let wanted = added(rt.alloc(), case)?;
    assert!(rt; more_in(rt.alloc(), case, wanted.as_slice())? == Some(1));
    Ok(bytes_with(rt, case) == Some(wanted))
}

#[test]
fn records_are_added(rt: HostRuntime) -> Result<(), Fail> {
    for case in &CASES {
        assert!(rt; is_added(&rt, case)?, "{}", case.name);
    }
    Ok(())
}
