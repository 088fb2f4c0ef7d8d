//! Checking and opening where memory may be refused. A test takes memory once itself, for its store:
//! scripts/refuse_test_memory.sh refuses one allocation after another.

use ncc_check::{NcFile, Note, NoteKind, Refusal, Report, check, open};
use ncc_store::MemStore;
use ncc_values::Version;
use std::process::Abort;
use std::test::*;

/// The usual limit.
const LIMIT: u64 = 67_108_864;

/// 34 dimensions, of which the second has a slash for its name, the third a padding that isn't zero, and
/// the last the first one's name; a tag of no attributes; and two scalars in the other order, the first
/// with another vsize and a begin of 505. The number of records has its top bit set.
const NOTED: &[u8] = b"CDF\x01\x80\0\0\0\0\0\0\x0a\0\0\0\x22\
\0\0\0\x01a\0\0\0\0\0\0\x01\0\0\0\x01/\0\0\0\0\0\0\x01\0\0\0\x01c\x01\0\0\0\0\0\x01\
\0\0\0\x01d\0\0\0\0\0\0\x01\0\0\0\x01e\0\0\0\0\0\0\x01\0\0\0\x01f\0\0\0\0\0\0\x01\
\0\0\0\x01g\0\0\0\0\0\0\x01\0\0\0\x01h\0\0\0\0\0\0\x01\0\0\0\x01i\0\0\0\0\0\0\x01\
\0\0\0\x01j\0\0\0\0\0\0\x01\0\0\0\x01k\0\0\0\0\0\0\x01\0\0\0\x01l\0\0\0\0\0\0\x01\
\0\0\0\x01m\0\0\0\0\0\0\x01\0\0\0\x01n\0\0\0\0\0\0\x01\0\0\0\x01o\0\0\0\0\0\0\x01\
\0\0\0\x01p\0\0\0\0\0\0\x01\0\0\0\x01q\0\0\0\0\0\0\x01\0\0\0\x01r\0\0\0\0\0\0\x01\
\0\0\0\x01s\0\0\0\0\0\0\x01\0\0\0\x01t\0\0\0\0\0\0\x01\0\0\0\x01u\0\0\0\0\0\0\x01\
\0\0\0\x01v\0\0\0\0\0\0\x01\0\0\0\x01w\0\0\0\0\0\0\x01\0\0\0\x01x\0\0\0\0\0\0\x01\
\0\0\0\x01y\0\0\0\0\0\0\x01\0\0\0\x01z\0\0\0\0\0\0\x01\0\0\0\x01A\0\0\0\0\0\0\x01\
\0\0\0\x01B\0\0\0\0\0\0\x01\0\0\0\x01C\0\0\0\0\0\0\x01\0\0\0\x01D\0\0\0\0\0\0\x01\
\0\0\0\x01E\0\0\0\0\0\0\x01\0\0\0\x01F\0\0\0\0\0\0\x01\0\0\0\x01G\0\0\0\0\0\0\x01\
\0\0\0\x01a\0\0\0\0\0\0\x01\
\0\0\0\x0c\0\0\0\0\0\0\0\x0b\0\0\0\x02\
\0\0\0\x01v\0\0\0\0\0\0\0\0\0\0\0\0\0\0\0\0\0\0\x01\0\0\0\x05\0\0\x01\xf9\
\0\0\0\x01w\0\0\0\0\0\0\0\0\0\0\0\0\0\0\0\0\0\0\x01\0\0\0\x04\0\0\x01\xf8\x07\x08";

/// The notes that are due, one of each kind.
const NOTES: [Note; 8] = [
    Note {
        kind: NoteKind::LargeCount,
        offset: 4,
    },
    Note {
        kind: NoteKind::NameRule,
        offset: 28,
    },
    Note {
        kind: NoteKind::HeaderPadding,
        offset: 45,
    },
    Note {
        kind: NoteKind::DuplicateName,
        offset: 412,
    },
    Note {
        kind: NoteKind::TaggedEmpty,
        offset: 424,
    },
    Note {
        kind: NoteKind::VsizeField,
        offset: 464,
    },
    Note {
        kind: NoteKind::UnalignedBegin,
        offset: 468,
    },
    Note {
        kind: NoteKind::Order,
        offset: 500,
    },
];

fn is_right<R: Abort>(rt: &R, report: &Report) {
    assert!(rt; report.version == Version::V1);
    assert!(rt; report.records == 1 << 31);
    assert!(rt; report.variables == 2);
    assert!(rt; report.notes.as_slice() == NOTES.as_slice());
}

#[test]
fn checks_without_memory(rt: HostRuntime) {
    let mut store = match NOTED.to_vec(rt.alloc()) {
        Ok(bytes) => MemStore::new(bytes),
        Err(_) => return,
    };
    match check(rt.alloc(), &mut store, LIMIT) {
        Ok(report) => is_right(&rt, &report),
        Err(refusal) => assert!(rt; refusal == Refusal::Memory),
    }
    assert!(rt; store.into_bytes().as_slice() == NOTED);
}

fn has_opened<R: Abort>(rt: &R, file: NcFile<MemStore>) -> MemStore {
    assert!(rt; file.records() == 1 << 31);
    assert!(rt; file.schema().dims.len() == 34);
    assert!(rt; file.placed().vars().len() == 2);
    file.into_store()
}

#[test]
fn opens_without_memory(rt: HostRuntime) {
    let store = match NOTED.to_vec(rt.alloc()) {
        Ok(bytes) => MemStore::new(bytes),
        Err(_) => return,
    };
    let store = match open(rt.alloc(), store, LIMIT) {
        Ok(file) => has_opened(&rt, file),
        Err((store, refusal)) => {
            assert!(rt; refusal == Refusal::Memory);
            store
        }
    };
    assert!(rt; store.into_bytes().as_slice() == NOTED);
}
