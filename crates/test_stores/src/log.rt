use crate::steps::Step::{Len, Read, Sync, Write};
use crate::steps::{Step, takes};
use ncc_store::{Call, Device, LogStore, Store};
use std::process::Abort;
use std::test::Fail;

// The log has these writes, where None stands for a sync.
fn has_calls(rt: &impl Abort, store: &LogStore, calls: &[Option<(u64, &[u8])>]) {
    assert_eq!(rt; store.calls().len(), calls.len());
    for (call, wanted) in store.calls().iter().zip(calls) {
        let found = match call {
            Call::Write(place, piece) => Some((*place, piece.as_slice())),
            Call::Sync => None,
        };
        assert!(rt; found == *wanted);
    }
}

const STEPS: [Step; 7] = [
    Write(2, &[8, 9], Ok(())),
    Sync(Ok(())),
    Write(0, &[7, 6, 5], Ok(())),
    Read(1, &[6, 5]),
    Len(Ok(4)),
    Write(4, &[4], Ok(())),
    Sync(Ok(())),
];

const LOGGED: [Option<(u64, &[u8])>; 5] = [
    Some((2, &[8, 9])),
    None,
    Some((0, &[7, 6, 5])),
    Some((4, &[4])),
    None,
];

// What each write replaced.
const REPLACED: [&[u8]; 3] = [&[3], &[1, 2, 8], &[]];

// Whether these are the bytes that the writes replaced.
fn has_replaced(store: &LogStore, replaced: &[&[u8]]) -> bool {
    store.replaced().len() == replaced.len()
        && store
            .replaced()
            .iter()
            .zip(replaced)
            .all(|(gone, wanted)| gone.as_slice() == *wanted)
}

#[test]
fn logs_a_mixed_run(rt: HostRuntime) -> Result<(), Fail> {
    let alloc = rt.alloc();
    let mut store = LogStore::new(alloc, [1, 2, 3].to_vec(alloc)?);
    has_calls(&rt, &store, &[]);
    for (number, step) in STEPS.iter().enumerate() {
        let size = store.len().ok();
        assert!(rt; takes(&mut store, size, *step), "step {number}");
    }
    has_calls(&rt, &store, &LOGGED);
    assert!(rt; has_replaced(&store, &REPLACED));
    assert_eq!(rt; store.failures(), 0);
    assert_eq!(rt; store.into_bytes().as_slice(), [7, 6, 5, 9, 4].as_slice());
    Ok(())
}

// Under `rt try --test --fail-alloc` each growth is refused in one of the runs.
#[test]
fn growth_without_memory_does_nothing(rt: HostRuntime) {
    let alloc = rt.alloc();
    let Ok(bytes) = [1, 2, 3].to_vec(alloc) else {
        return;
    };
    let mut store = LogStore::new(alloc, bytes);
    if store.write_at(2, &[8, 9]) == Err(Device) {
        has_calls(&rt, &store, &[]);
        assert_eq!(rt; store.failures(), 1);
        assert_eq!(rt; store.replaced().len(), 0);
        assert_eq!(rt; store.into_bytes().as_slice(), [1, 2, 3].as_slice());
    } else {
        assert_eq!(rt; store.failures(), 0);
        assert_eq!(rt; store.replaced().len(), 1);
        has_calls(&rt, &store, &[Some((2, &[8, 9]))]);
    }
}

#[test]
fn sync_without_memory_does_nothing(rt: HostRuntime) {
    let alloc = rt.alloc();
    let Ok(bytes) = [1, 2, 3].to_vec(alloc) else {
        return;
    };
    let mut store = LogStore::new(alloc, bytes);
    if store.sync() == Err(Device) {
        has_calls(&rt, &store, &[]);
        assert_eq!(rt; store.failures(), 1);
    } else {
        has_calls(&rt, &store, &[None]);
        assert_eq!(rt; store.failures(), 0);
    }
    assert_eq!(rt; store.into_bytes().as_slice(), [1, 2, 3].as_slice());
}
