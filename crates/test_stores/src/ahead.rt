use crate::steps::Step::{FailedRead, Len, Read, Sync, Write};
use crate::steps::{Step, takes_all};
use ncc_store::{AheadStore, FileStore, FuseStore, LongStore, Store};
use std::fs;
use std::test::Fail;

const SIZE: u64 = 200_000;

/// A length, the first read, and pages of 4,096 and 8,192 bytes.
const CLOSE: [Step; 8] = [
    Len(Ok(SIZE)),
    Read(0, &[5, 6, 0]),
    Read(1_000, &[0, 0]),
    Read(5_095, &[0]),
    Read(5_096, &[0]),
    Read(6_000, &[0]),
    Read(13_287, &[0]),
    FailedRead(13_287, 2),
];

/// A length, two reads that stand apart and a page after the second of them, twice; and two at the end.
const FAR: [Step; 10] = [
    Len(Ok(SIZE)),
    Read(0, &[5]),
    Read(1_026, &[0]),
    Read(2_051, &[0]),
    Read(6_146, &[0]),
    Read(190_000, &[0]),
    Read(190_001, &[0]),
    Read(199_999, &[0]),
    Read(200_000, &[]),
    FailedRead(1, 1),
];

/// No length is known, so that no page is read.
const UNKNOWN: [Step; 3] = [Read(0, &[5]), Read(1, &[6]), FailedRead(2, 1)];

/// So many calls of the store below pass.
const ROWS: [(u64, &[Step]); 3] = [(4, &CLOSE), (8, &FAR), (2, &UNKNOWN)];

#[test]
fn short_reads_that_follow_one_another(rt: HostRuntime) -> Result<(), Fail> {
    for (calls, steps) in ROWS {
        let long = LongStore::new([5, 6].to_vec(rt.alloc())?, SIZE);
        let mut store = AheadStore::new(rt.alloc(), FuseStore::new(long, calls))?;
        takes_all(&rt, &mut store, steps);
    }
    Ok(())
}

#[test]
fn short_read_after_a_long_one(rt: HostRuntime) -> Result<(), Fail> {
    let long = LongStore::new([5, 6].to_vec(rt.alloc())?, SIZE);
    let mut store = AheadStore::new(rt.alloc(), FuseStore::new(long, 4))?;
    takes_all(&rt, &mut store, &[Len(Ok(SIZE)), Read(0, &[5, 6])]);
    let mut piece = vec![in rt.alloc(); 9; 5_000]?;
    assert!(rt; store.read_at(2, &mut piece) == Ok(()));
    assert!(rt; piece.iter().all(|&byte| byte == 0));
    takes_all(
        &rt,
        &mut store,
        &[Read(5_002, &[0, 0]), FailedRead(5_003, 1)],
    );
    Ok(())
}

#[test]
fn file_that_gets_shorter(rt: HostRuntime) -> Result<(), Fail> {
    let path = "file_that_gets_shorter.nc";
    fs::write(&rt, path, [1, 2, 3, 4, 5, 6].as_slice())?;
    let file = FileStore::open(&rt, path, false)?;
    let mut store = AheadStore::new(rt.alloc(), file)?;
    takes_all(&rt, &mut store, &[Len(Ok(6)), Read(0, &[1])]);
    fs::write(&rt, path, [1, 2, 3].as_slice())?;
    takes_all(
        &rt,
        &mut store,
        &[FailedRead(1, 1), Len(Ok(3)), Read(1, &[2, 3])],
    );
    fs::remove_file(&rt, path)?;
    Ok(())
}

/// Of a file of four bytes.
const WRITTEN: [Step; 10] = [
    Len(Ok(4)),
    Read(0, &[1, 2]),
    Write(1, &[7], Ok(())),
    Read(0, &[1, 7, 3]),
    Len(Ok(4)),
    Read(3, &[4]),
    FailedRead(3, 2),
    Write(4, &[9], Ok(())),
    Sync(Ok(())),
    Read(3, &[4, 9]),
];

#[test]
fn what_was_written_is_read(rt: HostRuntime) -> Result<(), Fail> {
    let path = "what_was_written_is_read.nc";
    fs::write(&rt, path, [1, 2, 3, 4].as_slice())?;
    let file = FileStore::open(&rt, path, true)?;
    let mut store = AheadStore::new(rt.alloc(), file)?;
    takes_all(&rt, &mut store, &WRITTEN);
    fs::remove_file(&rt, path)?;
    Ok(())
}
