ghost use Rattle.std.specs.Prelude.{◌≡◌};

use crate::steps::Step::{FailedRead, Len, Read, Sync, Write};
use crate::steps::{Step, takes, takes_all};
use ncc_store::{Device, FileStore, LogFile, LogStore, Store, SystemFile};
use std::alloc::{AllocError, Global};
use std::io::ErrorKind;
use std::test::Fail;
use std::{fs, io};

const WRITES: [Step; 4] = [
    Len(Ok(3)),
    Write(1, &[7], Ok(())),
    Write(3, &[4, 5], Ok(())),
    Sync(Ok(())),
];

const READS: [Step; 3] = [Len(Ok(5)), Read(0, &[1, 7, 3, 4, 5]), Read(3, &[4, 5])];

/// Of a file of three bytes that was opened for reading.
const FAILS: [Step; 7] = [
    Read(3, &[]),
    FailedRead(2, 2),
    FailedRead(4, 0),
    FailedRead(u64::MAX, 2),
    Write(0, &[1], Err(Device)),
    Write(0, &[], Err(Device)),
    Sync(Err(Device)),
];

#[test]
fn written_and_read_anew(rt: HostRuntime) -> Result<(), Fail> {
    let path = "written_and_read_anew.nc";
    fs::write(&rt, path, [1, 2, 3].as_slice())?;
    let mut store = FileStore::open(&rt, path, true)?;
    takes_all(&rt, &mut store, &WRITES);
    assert_eq!(rt; store.failures(), 0);
    let mut anew = FileStore::open(&rt, path, false)?;
    takes_all(&rt, &mut anew, &READS);
    assert_eq!(rt; anew.failures(), 0);
    fs::remove_file(&rt, path)?;
    Ok(())
}

#[test]
fn each_failure_is_counted_and_has_its_reason(rt: HostRuntime) -> Result<(), Fail> {
    let path = "each_failure_is_counted.nc";
    fs::write(&rt, path, [1, 2, 3].as_slice())?;
    let mut store = FileStore::open(&rt, path, false)?;
    assert!(rt; store.fault().is_none());
    assert!(rt; takes(&mut store, None, FailedRead(2, 2)));
    assert!(rt; matches!(store.fault(), Some(ErrorKind::UnexpectedEof)));
    takes_all(&rt, &mut store, &FAILS);
    assert_eq!(rt; store.failures(), 7);
    // The last of them that asks the system has a place that no file has.
    assert!(rt; matches!(store.fault(), Some(ErrorKind::InvalidInput)));
    fs::remove_file(&rt, path)?;
    Ok(())
}

#[test]
fn refused_paths(rt: HostRuntime) -> Result<(), Fail> {
    fs::create_dir(&rt, "folder.nc")?;
    // The system lets nobody write the last of them, not even root.
    let refused = ["not_there.nc", "folder.nc", "/proc/sys/kernel/osrelease"];
    for path in refused {
        assert!(rt; FileStore::open(&rt, path, true).is_err(), "{path}");
    }
    for path in ["not_there.nc", "folder.nc"] {
        assert!(rt; FileStore::open(&rt, path, false).is_err(), "{path}");
    }
    fs::remove_dir(&rt, "folder.nc")?;
    Ok(())
}

const UNSYNCED: Step = Sync(Err(Device));

// The system syncs no such file, and after that nothing is written.
#[test]
fn nothing_is_written_after_a_failed_sync(rt: HostRuntime) -> Result<(), Fail> {
    let mut store = FileStore::open(&rt, "/proc/self/comm", true)?;
    for (step, failures) in [(UNSYNCED, 1), (Write(0, b"1", Err(Device)), 2)] {
        assert!(rt; takes(&mut store, None, step) && store.failures() == failures);
    }
    assert!(rt; matches!(store.fault(), Some(ErrorKind::InvalidInput)));
    Ok(())
}

/// After the first of three bytes. Two bytes a call at most, and the last seven whole: three writes.
const PIECE: [u8; 11] = [9, 8, 7, 6, 5, 4, 3, 2, 1, 0, 9];

/// What a write and two syncs answer over a file that passes so many calls, and the bytes.
fn synced_twice(
    alloc: Global,
    calls: u64,
) -> Result<([Result<(), Device>; 3], Vec<u8>), AllocError> {
    let log = LogStore::new(alloc, [1, 2, 3].to_vec(alloc)?);
    let mut store = FileStore::over(LogFile::new(log, 2, calls), true);
    let written = store.write_at(1, &PIECE);
    let first = store.sync();
    let second = store.sync();
    let bytes = store.into_file().into_log().into_bytes();
    Ok(([written, first, second], bytes))
}

const PASSED: Result<(), Device> = Ok(());

const FAILED: Result<(), Device> = Err(Device);

/// Of so many calls: the answers, and how many bytes of the piece are there.
const ROWS: [(u64, [Result<(), Device>; 3], usize); 6] = [
    (0, [FAILED, FAILED, FAILED], 0),
    (1, [FAILED, FAILED, FAILED], 2),
    (2, [FAILED, FAILED, FAILED], 4),
    (3, [PASSED, FAILED, FAILED], 11),
    (4, [PASSED, PASSED, FAILED], 11),
    (5, [PASSED, PASSED, PASSED], 11),
];

#[test]
fn no_call_after_a_failed_one(rt: HostRuntime) -> Result<(), Fail> {
    for (calls, answers, done) in ROWS {
        let (answered, bytes) = synced_twice(rt.alloc(), calls)?;
        assert!(rt; answered == answers, "{calls} calls");
        let size = 3.max(1 + done);
        assert!(rt; bytes.len() == size, "{calls} calls");
        for (place, byte) in bytes.iter().enumerate() {
            let wanted = if place == 0 || place > done {
                place as u8 + 1
            } else {
                PIECE[(place - 1).min(10)]
            };
            assert!(rt; *byte == wanted, "{calls} calls, {place}");
        }
    }
    Ok(())
}

#[test]
fn one_writer(rt: HostRuntime) -> Result<(), Fail> {
    let path = "one_writer.nc";
    fs::write(&rt, path, [1, 2, 3].as_slice())?;
    fs::hard_link(&rt, path, "linked.nc")?;
    let first = FileStore::open(&rt, path, true)?;
    for name in [path, "linked.nc"] {
        assert!(rt; FileStore::open(&rt, name, true).is_err(), "{name}");
        assert!(rt; FileStore::open(&rt, name, false).is_ok(), "{name}");
    }
    drop(first);
    assert!(rt; FileStore::open(&rt, path, true).is_ok());
    fs::remove_file(&rt, path)?;
    fs::remove_file(&rt, "linked.nc")?;
    Ok(())
}

/// Fails at its first call, and would pass each later one.
#[derive(Drop)]
struct FailsOnce {
    failed: bool,
    sound: bool,
}

impl FailsOnce {
    fn passes(&mut self) -> io::Result<()>
        ensures { self.new.sound ≡ self.old.sound }
    {
        if self.failed {
            return Ok(());
        }
        self.failed = true;
        Err(ErrorKind::Other.into())
    }
}

impl SystemFile for FailsOnce {
    ghost use Rattle.std.specs.Prelude.{[], true, false};
    ghost use Rattle.ncc_store.specs.StoreLaws.{untold};

    ghost tells_bytes = { false };

    ghost tells_images = { false };

    ghost bytes = { λ f. [] };

    ghost images = { λ f c. ⊥ };

    ghost moment = { λ f. 0 };

    ghost images_since = { λ f t c. ⊥ };

    ghost sound = { λ f. f.sound };

    ghost tells_failures = { false };

    ghost failed = { λ f. 0 };

    ghost calls = { λ f. 0 };

    ghost are_bytes = { λ f told. untold told };

    ghost stands = { λ f told. untold told };

    ghost counts_now = { λ f t c le now. now };

    ghost only_now = { λ f c left. left };

    fn size(&mut self) -> io::Result<u64> {
        self.passes()?;
        Ok(3)
    }

    fn fill(&mut self, _place: u64, _out: &mut [u8]) -> io::Result<()> {
        self.passes()
    }

    fn write_some(&mut self, _place: u64, piece: &[u8]) -> io::Result<usize> {
        self.sound = self.passes().is_ok();
        if self.sound {
            Ok(piece.len())
        } else {
            Err(ErrorKind::Other.into())
        }
    }

    fn settle(&mut self) -> io::Result<()> {
        self.sound = self.passes().is_ok();
        if self.sound {
            Ok(())
        } else {
            Err(ErrorKind::Other.into())
        }
    }
}

fn fails_once() -> FileStore<FailsOnce> {
    FileStore::over(
        FailsOnce {
            failed: false,
            sound: true,
        },
        true,
    )
}

// Two calls, and the failures after them. A call that failed isn't tried again, and after a write or a sync there is none
// that writes. Reads go on.
const ONCE: [([Step; 2], u64); 6] = [
    ([Len(Err(Device)), Len(Ok(3))], 1),
    ([FailedRead(0, 2), Read(0, &[9, 9])], 1),
    ([Write(0, &[1], Err(Device)), Read(0, &[9, 9])], 1),
    ([UNSYNCED, Len(Ok(3))], 1),
    (
        [Write(0, &[1], Err(Device)), Write(0, &[1], Err(Device))],
        2,
    ),
    ([UNSYNCED, UNSYNCED], 2),
];

#[test]
fn errors_are_answered(rt: HostRuntime) {
    for (steps, failures) in ONCE {
        let mut store = fails_once();
        takes_all(&rt, &mut store, &steps);
        assert_eq!(rt; store.failures(), failures);
        assert!(rt; matches!(store.fault(), Some(ErrorKind::Other)));
    }
}
