//! Stores that fail from some call on.

use crate::cases::*;
use crate::files::file_of;
use crate::helpers::*;
use ncc_check::{AppendError, NcFile, open};
use ncc_store::{FuseStore, MemStore};
use std::alloc::Global;
use std::process::Abort;
use std::test::*;
use test_files::LIMIT;

type Fused = FuseStore<MemStore>;

/// How many calls a file takes to be opened: the length, and the header in one piece.
const TO_OPEN: u64 = 2;

/// The file over a store that passes so many calls of an append, and then does such a front of a long write.
fn opened(alloc: Global, case: &Case, passed: u64, front: usize) -> Option<NcFile<Fused>> {
    let inner = MemStore::new(file_of(alloc, &case.file).ok()?);
    let store = FuseStore::with_front(inner, passed.saturating_add(TO_OPEN), front);
    open(alloc, store, LIMIT).ok()
}

/// What it answers, its number of records afterwards, and its bytes.
fn after(
    alloc: Global,
    case: &Case,
    passed: u64,
    front: usize,
) -> Option<((Answer, Answer), u64, Vec<u8>)> {
    let mut file = opened(alloc, case, passed, front)?;
    let answers = answers(&mut file, case.image);
    let records = file.records();
    Some((
        answers,
        records,
        file.into_store().into_inner().into_bytes(),
    ))
}

/// What it should answer, and how many records it should have more, and its bytes: with the count, the second last
/// call, the new record is there.
fn wanted(case: &Case, passed: u64) -> ((Answer, Answer), u64, u64) {
    let failed = (Err(AppendError::Device), Err(AppendError::Reopen));
    if passed >= case.calls {
        ((Ok(()), Ok(())), 1, 1)
    } else if passed.saturating_add(1) == case.calls {
        (failed, 0, 1)
    } else {
        (failed, 0, 0)
    }
}

/// Whether all is so after so many calls.
fn is_so(alloc: Global, case: &Case, passed: u64, front: usize) -> Option<bool> {
    let (answers, records, bytes) = after(alloc, case, passed, front)?;
    let held = more_in(alloc, case, bytes.as_slice()).ok()?;
    let (answers_wanted, more, held_more) = wanted(case, passed);
    Some(
        answers == answers_wanted
            && Some(records) == case.records.checked_add(more)
            && held == Some(held_more),
    )
}

#[test]
fn each_call_in_turn(rt: HostRuntime) {
    for case in &CASES {
        for front in 0..13 {
            for passed in 0..7 {
                let so = is_so(rt.alloc(), case, passed, front);
                assert!(rt;
                    so == Some(true),
                    "{}, {passed} calls, front {front}",
                    case.name
                );
            }
        }
    }
}
