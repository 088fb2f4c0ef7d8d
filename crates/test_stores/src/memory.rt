use crate::steps::Step::{Len, Read, Sync, Write};
use crate::steps::{Step, takes};
use ncc_store::{Device, MemStore, Store};
use std::process::Abort;
use std::test::Fail;

const STEPS: [Step; 9] = [
    Len(Ok(3)),
    Write(1, &[7], Ok(())),
    Write(3, &[4, 5], Ok(())),
    Write(4, &[8, 9], Ok(())),
    Write(6, &[], Ok(())),
    Sync(Ok(())),
    Len(Ok(6)),
    Read(1, &[7, 3, 4]),
    Read(6, &[]),
];

#[test]
fn writes_inside_and_over_the_end(rt: HostRuntime) -> Result<(), Fail> {
    let mut store = MemStore::new([1, 2, 3].to_vec(rt.alloc())?);
    for (number, step) in STEPS.iter().enumerate() {
        let size = store.len().ok();
        assert!(rt; takes(&mut store, size, *step), "step {number}");
    }
    assert_eq!(rt; store.failures(), 0);
    let bytes = store.into_bytes();
    assert_eq!(rt; bytes.as_slice(), [1, 7, 3, 4, 8, 9].as_slice());
    Ok(())
}

// Under `rt try --test --fail-alloc` the growth is refused in one of the runs.
#[test]
fn growth_without_memory_does_nothing(rt: HostRuntime) {
    let Ok(bytes) = [1, 2, 3].to_vec(rt.alloc()) else {
        return;
    };
    let mut store = MemStore::new(bytes);
    let grows = store.write_at(2, &[8, 9, 10, 11]);
    let failures = store.failures();
    let bytes = store.into_bytes();
    if grows == Err(Device) {
        assert_eq!(rt; failures, 1);
        assert_eq!(rt; bytes.as_slice(), [1, 2, 3].as_slice());
    } else {
        assert_eq!(rt; failures, 0);
        assert_eq!(rt; bytes.as_slice(), [1, 2, 8, 9, 10, 11].as_slice());
    }
}
