//! Adds an image to a file in two steps, each of which a stop may cut short.

ghost use Rattle.std.specs.Prelude.{◌≡◌, ◌+◌, ◌<◌, ◌≤◌, ◌^◌, ℕ, List, min, length, IsTrue, OnOk, OnErr};
ghost use Rattle.ncc_values.specs.Failures.{Counts};
ghost use Rattle.ncc_store.specs.Store.{written, Only, LeavesOnly};
ghost use Rattle.ncc_check.specs.Appending.{padded, staged, appended, Keeps, IsBeforeOrAfter, IsOldOrWritten};

use ncc_store::{Device, Store};

/// Writes up to three zeros, so that a file of this size reaches the place. At most one call.
fn pad_to<S: Store>(store: &mut S, size: u64, place: u64) -> Result<(), Device>
    requires size { IsTrue S.tells_bytes → size ≡ length (S.bytes store.old) }
    requires near { place ≤ size + 3 }
    requires end { place < 2 ^ 63 }
    ensures ok { IsTrue S.tells_bytes → OnOk result (S.bytes store.new ≡ padded (S.bytes store.old) place) }
    ensures err { IsTrue S.tells_bytes → OnErr result (Keeps (S.bytes store.old) place (S.bytes store.new)) }
    ensures kept { IsTrue S.tells_bytes → Only (S.bytes store.old) (S.images store.old)
        → (c : List ℕ) → S.images store.new c → Keeps (S.bytes store.old) place c }
    ensures any_moment { IsTrue S.tells_bytes → Only (S.bytes store.old) (S.images store.old)
        → LeavesOnly S.moment S.images_since store.old store.new (Keeps (S.bytes store.old) place) }
    ensures none { place ≤ size → store.new ≡ store.old }
    ensures count { Counts (S.failures store.old) (S.failures store.new) result }
    ensures calls { S.calls store.new ≤ S.calls store.old + 1 }
    ensures reach { S.reach store.new ≤ S.reach store.old }
{
    if size < place {
        let missing = (place - size) as usize;
        store.write_at(size, &[0; 3][..missing])?;
    }
    Ok(())
}

/// The first step: zeros that are missing, the image, and a sync. At most three calls. After it nothing is pending,
/// and the old data stands.
pub(crate) fn stage<S: Store>(
    store: &mut S,
    size: u64,
    place: u64,
    image: &[u8],
) -> Result<(), Device>
    requires size { IsTrue S.tells_bytes → size ≡ length (S.bytes store.old) }
    requires near { place ≤ size + 3 }
    requires end { place + length image.now < 2 ^ 63 }
    ensures ok { IsTrue S.tells_bytes
        → OnOk result (S.bytes store.new ≡ staged (S.bytes store.old) place image.now) }
    ensures durable { OnOk result (Only (S.bytes store.new) (S.images store.new)) }
    ensures err { IsTrue S.tells_bytes → OnErr result (Keeps (S.bytes store.old) place (S.bytes store.new)) }
    ensures any_moment { IsTrue S.tells_bytes → Only (S.bytes store.old) (S.images store.old)
        → LeavesOnly S.moment S.images_since store.old store.new (Keeps (S.bytes store.old) place) }
    ensures count { Counts (S.failures store.old) (S.failures store.new) result }
    ensures calls { S.calls store.new ≤ S.calls store.old + 3 }
    ensures calls_whole { place ≤ size → S.calls store.new ≤ S.calls store.old + 2 }
    ensures reach { S.reach store.new ≤ S.reach store.old }
{
    pad_to(store, size, place)?;
    store.write_at(place, image)?;
    store.sync()
}

/// The second step: the count, a field of at most 8 bytes, and a sync. At most two calls.
pub(crate) fn commit<S: Store>(store: &mut S, place: u64, count: &[u8]) -> Result<(), Device>
    requires short { length count.now ≤ 8 }
    requires end { place + length count.now < 2 ^ 63 }
    requires inside { IsTrue S.tells_bytes → place + length count.now ≤ length (S.bytes store.old) }
    ensures ok { IsTrue S.tells_bytes
        → OnOk result (S.bytes store.new ≡ written (S.bytes store.old) place count.now) }
    ensures durable { OnOk result (Only (S.bytes store.new) (S.images store.new)) }
    ensures err { IsTrue S.tells_bytes
        → OnErr result (IsOldOrWritten (S.bytes store.old) place count.now (S.bytes store.new)) }
    ensures any_moment { IsTrue S.tells_bytes → Only (S.bytes store.old) (S.images store.old)
        → LeavesOnly S.moment S.images_since store.old store.new
        (IsOldOrWritten (S.bytes store.old) place count.now) }
    ensures count { Counts (S.failures store.old) (S.failures store.new) result }
    ensures calls { S.calls store.new ≤ S.calls store.old + 2 }
    ensures reach { S.reach store.new ≤ S.reach store.old }
{
    store.write_at(place, count)?;
    store.sync()
}

/// Both steps. After `Ok` the new data stands, with nothing pending. After a `Device`, and after a stop at any moment,
/// the old data stands or the new data is whole.
pub(crate) fn add_image<S: Store>(
    store: &mut S,
    size: u64,
    place: u64,
    image: &[u8],
    count_place: u64,
    count: &[u8],
) -> Result<(), Device>
    requires size { IsTrue S.tells_bytes → size ≡ length (S.bytes store.old) }
    requires near { place ≤ size + 3 }
    requires end { place + length image.now < 2 ^ 63 }
    requires short { length count.now ≤ 8 }
    requires header { count_place + length count.now ≤ min place size }
    ensures ok { IsTrue S.tells_bytes → OnOk result
        (S.bytes store.new ≡ appended (S.bytes store.old) place image.now count_place count.now) }
    ensures durable { OnOk result (Only (S.bytes store.new) (S.images store.new)) }
    ensures err { IsTrue S.tells_bytes → OnErr result
        (IsBeforeOrAfter (S.bytes store.old) place image.now count_place count.now (S.bytes store.new)) }
    ensures any_moment { IsTrue S.tells_bytes → Only (S.bytes store.old) (S.images store.old)
        → LeavesOnly S.moment S.images_since store.old store.new
        (IsBeforeOrAfter (S.bytes store.old) place image.now count_place count.now) }
    ensures count { Counts (S.failures store.old) (S.failures store.new) result }
    ensures calls { S.calls store.new ≤ S.calls store.old + 5 }
    ensures calls_whole { place ≤ size → S.calls store.new ≤ S.calls store.old + 4 }
    ensures reach { S.reach store.new ≤ S.reach store.old }
{
    stage(store, size, place, image)?;
    commit(store, count_place, count)
}
