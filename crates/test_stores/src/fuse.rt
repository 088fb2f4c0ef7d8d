use crate::steps::Step::{FailedRead, Len, Read, Sync, Write};
use crate::steps::{Step, takes};
use ncc_store::{Device, FuseStore, LogStore, LongStore, MemStore, Store};
use std::alloc::Global;
use std::process::Abort;
use std::test::Fail;

/// Of a store that passes no call any more.
const BLOWN: [Step; 4] = [
    Len(Err(Device)),
    FailedRead(0, 0),
    Write(0, &[], Err(Device)),
    Sync(Err(Device)),
];

// Each call fails.
fn is_blown<S: Store>(rt: &impl Abort, store: &mut FuseStore<S>) {
    assert_eq!(rt; store.left(), 0);
    for step in BLOWN {
        assert!(rt; takes(store, Some(0), step));
    }
}

// A write of that many sevens, after `passed` calls that each write a one, does so many of them.
fn does(
    rt: &impl Abort,
    alloc: Global,
    passed: u64,
    front: Option<usize>,
    size: usize,
    done: usize,
) -> Result<(), Fail> {
    let inner = MemStore::new([0; 14].to_vec(alloc)?);
    let mut store = match front {
        Some(front) => FuseStore::with_front(inner, passed, front),
        None => FuseStore::new(inner, passed),
    };
    for i in 0..passed {
        assert_eq!(rt; store.left(), passed - i);
        assert_eq!(rt; store.write_at(0, &[1]), Ok(()));
    }
    assert!(rt; size <= 12);
    assert_eq!(rt; store.write_at(0, &[7; 12][..size]), Err(Device));
    is_blown(rt, &mut store);
    assert_eq!(rt; store.own_failures(), 5);
    let bytes = store.into_inner().into_bytes();
    assert_eq!(rt; bytes.len(), 14);
    for (i, byte) in bytes.iter().enumerate() {
        let before = if i == 0 && passed > 0 { 1 } else { 0 };
        let wanted = if i < done { 7 } else { before };
        assert_eq!(rt; *byte, wanted, "byte {i}, passed {passed}, front {front:?}");
    }
    Ok(())
}

#[test]
fn fails_after_so_many_calls(rt: HostRuntime) -> Result<(), Fail> {
    for passed in 0..5 {
        does(&rt, rt.alloc(), passed, None, 6, 0)?;
        does(&rt, rt.alloc(), passed, None, 12, 0)?;
        for front in 0..13 {
            does(&rt, rt.alloc(), passed, Some(front), 6, 0)?;
            does(&rt, rt.alloc(), passed, Some(front), 8, 0)?;
            does(&rt, rt.alloc(), passed, Some(front), 9, front.min(9))?;
            does(&rt, rt.alloc(), passed, Some(front), 12, front)?;
        }
        does(&rt, rt.alloc(), passed, Some(usize::MAX), 12, 12)?;
    }
    Ok(())
}

/// One call of each kind, of three bytes.
const EACH: [Step; 4] = [
    Len(Ok(3)),
    Read(1, &[2, 3]),
    Write(3, &[4], Ok(())),
    Sync(Ok(())),
];

#[test]
fn passes_calls_of_each_kind(rt: HostRuntime) -> Result<(), Fail> {
    let alloc = rt.alloc();
    let inner = LogStore::new(alloc, [1, 2, 3].to_vec(alloc)?);
    let mut store = FuseStore::new(inner, 8);
    for step in EACH {
        let size = store.len()?;
        assert!(rt; takes(&mut store, Some(size), step));
    }
    is_blown(&rt, &mut store);
    let inner = store.into_inner();
    assert_eq!(rt; inner.calls().len(), 2);
    assert_eq!(rt; inner.into_bytes().as_slice(), [1, 2, 3, 4].as_slice());
    Ok(())
}

// What the store below fails at isn't counted twice.
#[test]
fn failures_below_are_not_its_own(rt: HostRuntime) {
    let mut store = FuseStore::new(LongStore::new(Vec::new(rt.alloc()), 0), 1);
    assert_eq!(rt; store.sync(), Err(Device));
    assert_eq!(rt; store.own_failures(), 0);
    assert_eq!(rt; store.into_inner().failures(), 1);
}
