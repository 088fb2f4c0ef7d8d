//! A small routine over any store: the contract says enough to prove what a stop leaves of it.

ghost use Rattle.std.specs.Prelude.{◌≡◌, ◌+◌, ◌<◌, ◌≤◌, ◌^◌, ◌++◌, length, IsTrue, OnOk, OnErr};
ghost use Rattle.ncc_values.specs.Failures.{Counts};
ghost use Rattle.ncc_store.specs.Store.{written, Only, LeavesOnly};
ghost use Rattle.test_stores.specs.Growing.{Stands, IsOldOrWritten, IsOldOrGrown};

use ncc_store::{Device, FuseStore, LogStore, Store, laws};
use std::alloc::{AllocError, Global};
use std::process::Abort;
use std::test::Fail;

/// Puts a few bytes and an image after the bytes, and syncs.
fn stage<S: Store>(store: &mut S, size: u64, few: &[u8], image: &[u8]) -> Result<(), Device>
    requires size { IsTrue S.tells_bytes → size ≡ length (S.bytes store.old) }
    requires end { size + length few.now + length image.now < 2 ^ 63 }
    ensures ok { IsTrue S.tells_bytes → OnOk result (S.bytes store.new ≡ S.bytes store.old ++ (few.now ++ image.now)) }
    ensures durable { OnOk result (Only (S.bytes store.new) (S.images store.new)) }
    ensures err { IsTrue S.tells_bytes → OnErr result (Stands (S.bytes store.old) (S.bytes store.new)) }
    ensures any_moment { IsTrue S.tells_bytes → Only (S.bytes store.old) (S.images store.old)
        → LeavesOnly S.moment S.images_since store.old store.new (Stands (S.bytes store.old)) }
    ensures count { Counts (S.failures store.old) (S.failures store.new) result }
    ensures calls { S.calls store.new ≤ S.calls store.old + 3 }
{
    store.write_at(size, few)?;
    store.write_at(size + few.len() as u64, image)?;
    store.sync()
}

/// Writes the count, of at most 8 bytes, and syncs.
fn commit<S: Store>(store: &mut S, place: u64, count: &[u8]) -> Result<(), Device>
    requires short { length count.now ≤ 8 }
    requires end { place + length count.now < 2 ^ 63 }
    requires inside { IsTrue S.tells_bytes → place + length count.now ≤ length (S.bytes store.old) }
    ensures ok { IsTrue S.tells_bytes → OnOk result (S.bytes store.new ≡ written (S.bytes store.old) place count.now) }
    ensures durable { OnOk result (Only (S.bytes store.new) (S.images store.new)) }
    ensures err { IsTrue S.tells_bytes
        → OnErr result (IsOldOrWritten (S.bytes store.old) place count.now (S.bytes store.new)) }
    ensures any_moment { IsTrue S.tells_bytes → Only (S.bytes store.old) (S.images store.old)
        → LeavesOnly S.moment S.images_since store.old store.new (IsOldOrWritten (S.bytes store.old) place count.now) }
    ensures count { Counts (S.failures store.old) (S.failures store.new) result }
    ensures calls { S.calls store.new ≤ S.calls store.old + 2 }
{
    store.write_at(place, count)?;
    store.sync()
}

/// Both. At `Ok` all is there with the new count, and nothing is pending. After an `Err`, and after a stop
/// at any moment, the old bytes stand, and the count is the old or the new one, whole.
fn grow<S: Store>(
    store: &mut S,
    size: u64,
    few: &[u8],
    image: &[u8],
    place: u64,
    count: &[u8],
) -> Result<(), Device>
    requires size { IsTrue S.tells_bytes → size ≡ length (S.bytes store.old) }
    requires end { size + length few.now + length image.now < 2 ^ 63 }
    requires short { length count.now ≤ 8 }
    requires inside { place + length count.now ≤ size }
    ensures ok { IsTrue S.tells_bytes
        → OnOk result (S.bytes store.new ≡ written (S.bytes store.old ++ (few.now ++ image.now)) place count.now) }
    ensures durable { OnOk result (Only (S.bytes store.new) (S.images store.new)) }
    ensures err { IsTrue S.tells_bytes
        → OnErr result (IsOldOrGrown (S.bytes store.old) (few.now ++ image.now) place count.now (S.bytes store.new)) }
    ensures any_moment { IsTrue S.tells_bytes → Only (S.bytes store.old) (S.images store.old)
        → LeavesOnly S.moment S.images_since store.old store.new
        (IsOldOrGrown (S.bytes store.old) (few.now ++ image.now) place count.now) }
    ensures count { Counts (S.failures store.old) (S.failures store.new) result }
    ensures calls { S.calls store.new ≤ S.calls store.old + 5 }
{
    stage(store, size, few, image)?;
    commit(store, place, count)
}

/// Twelve bytes with the count 1 at the place 4.
const OLD: [u8; 12] = [67, 68, 70, 1, 0, 0, 0, 1, 5, 5, 5, 5];

/// What is put after them.
const MORE: [u8; 12] = [7, 7, 8, 8, 8, 8, 8, 8, 8, 8, 8, 8];

/// What the routine answers, and what it leaves, over a store that passes so many calls.
fn grown(
    alloc: Global,
    passed: u64,
    front: usize,
) -> Result<(Result<(), Device>, u64, Vec<u8>), AllocError> {
    let inner = LogStore::new(alloc, OLD.to_vec(alloc)?);
    let mut store = FuseStore::with_front(inner, passed, front);
    let (few, image) = MORE.split_at(2);
    let answer = grow(&mut store, 12, few, image, 4, &[0, 0, 0, 2]);
    let left = store.left();
    Ok((answer, left, store.into_inner().into_bytes()))
}

/// The old bytes with this count, and so many after them.
fn bytes_with(alloc: Global, count: u8, behind: usize) -> Result<Vec<u8>, AllocError> {
    let mut bytes = OLD.to_vec(alloc)?;
    bytes[7] = count;
    let (front, _rest) = MORE.split_at(behind.min(12));
    bytes.extend_from_slice(front)?;
    Ok(bytes)
}

/// How many bytes follow the old ones after so many calls: of the image, a front.
fn behind_after(passed: u64, front: usize) -> usize {
    if passed == 0 {
        0
    } else if passed == 1 {
        2 + front.min(10)
    } else {
        12
    }
}

#[test]
fn grows_or_stands(rt: HostRuntime) -> Result<(), Fail> {
    for front in 0..13 {
        for passed in 0..6 {
            let (answer, left, bytes) = grown(rt.alloc(), passed, front)?;
            let count = if passed < 4 { 1 } else { 2 };
            let wanted = bytes_with(rt.alloc(), count, behind_after(passed, front))?;
            let answers = if passed < 5 { Err(Device) } else { Ok(()) };
            assert!(rt;
                answer == answers && left == 0,
                "passed {passed}, front {front}"
            );
            assert!(rt; bytes == wanted, "passed {passed}, front {front}");
        }
    }
    Ok(())
}

#[test]
fn device_has_a_text(rt: HostRuntime) -> Result<(), Fail> {
    laws::short_write_is_whole();
    laws::short_write_at_any_moment::<LogStore>();
    laws::settled_store_leaves_its_bytes::<LogStore>();
    laws::write_goes_on::<LogStore>();
    laws::unmoved_calls_join::<LogStore>();
    let text = format!(in rt.alloc(); "{Device}")?;
    assert_eq!(rt; text.as_str(), "Device");
    Ok(())
}
