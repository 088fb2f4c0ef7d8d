use crate::steps::Step::{FailedRead, Len, Read, Sync, Write};
use crate::steps::{Step, takes_all};
use ncc_store::{Device, LongStore};
use std::test::Fail;

const SIZE: u64 = 8_589_934_668;

const READS: [Step; 5] = [
    Len(Ok(SIZE)),
    Read(0, &[5, 6, 0]),
    Read(1, &[6, 0, 0]),
    Read(SIZE - 3, &[0, 0, 0]),
    Read(SIZE, &[]),
];

const FAILS: [Step; 8] = [
    FailedRead(SIZE - 2, 3),
    FailedRead(SIZE + 1, 0),
    FailedRead(u64::MAX, 3),
    Write(0, &[1], Err(Device)),
    Write(SIZE, &[], Err(Device)),
    Sync(Err(Device)),
    Len(Ok(SIZE)),
    Read(0, &[5, 6, 0]),
];

const OF_NOTHING: [Step; 3] = [Len(Ok(0)), Read(0, &[]), FailedRead(0, 1)];

#[test]
fn zero_past_its_front(rt: HostRuntime) -> Result<(), Fail> {
    let mut store = LongStore::new([5, 6].to_vec(rt.alloc())?, SIZE);
    takes_all(&rt, &mut store, &READS);
    assert_eq!(rt; store.failures(), 0);
    Ok(())
}

#[test]
fn fails_past_its_end_and_at_writes(rt: HostRuntime) -> Result<(), Fail> {
    let mut store = LongStore::new([5, 6].to_vec(rt.alloc())?, SIZE);
    takes_all(&rt, &mut store, &FAILS);
    assert_eq!(rt; store.failures(), 6);
    Ok(())
}

#[test]
fn no_byte_at_all(rt: HostRuntime) {
    let mut store = LongStore::new(Vec::new(rt.alloc()), 0);
    takes_all(&rt, &mut store, &OF_NOTHING);
}
