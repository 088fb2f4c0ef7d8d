//! Stores of bytes.

ghost use Rattle.std.specs.Prelude.{◌≡◌, ◌+◌, ◌<◌, ◌≤◌, ◌^◌, Bool, List, ℕ, max, length, take, drop, IsTrue, IfOk, OnOk, OnErr};
ghost use Rattle.ncc_values.specs.Failures.{last_count, Counts};
ghost use Rattle.ncc_values.specs.Numbers.{IsBytes};
ghost use Rattle.ncc_store.specs.Store.{written, FrontWritten, AfterWrite, Only, KeepsImages, Elapses, Unmoved};

use ncc_values::Device;

/// Bytes that are read and written at a place, counted in bytes from 0. A write is pending until a
/// `sync` succeeded: a stop may leave any part of it. A call that fails answers `Device` and is counted.
///
/// | Store | Tells its bytes | Tells its images | Fails |
/// |---|---|---|---|
/// | `MemStore` | yes | no | where it grows and finds no memory |
/// | `LogStore` | yes | yes | where it finds no memory to grow, or for its log |
/// | `FuseStore<S>` | as `S` | as `S` | as `S` does, and after so many calls |
/// | `AheadStore<S>` | as `S` | as `S` | as `S` does, also where `S` fails on the rest of a page |
/// | `LongStore` | no | no | past its end, and at each write and sync |
/// | `FileStore<F>` | as `F`, over a file of the disk no | as `F` | as the file does, and once it isn't ready at each write and sync |
pub trait Store {
    /// Whether it tells its bytes. Where it doesn't, nothing is said of them.
    ghost tells_bytes: { Bool };

    /// Whether it tells what a stop may leave. Where it doesn't, a stop may leave more than its images.
    ghost tells_images: { Bool };

    ghost bytes: { Self → List ℕ };

    /// What a stop at this moment may leave.
    ghost images: { Self → List ℕ → Type 0 };

    /// The moment, as a number that doesn't fall.
    ghost moment: { Self → ℕ };

    /// What a stop at some moment from that one on might have left, during a call or between two.
    ghost images_since: { Self → ℕ → List ℕ → Type 0 };

    /// How often it failed. The count stays at 2^64 - 1.
    ghost failures: { Self → ℕ };

    /// A number that grows by at most one at each call, so that a caller can bound its calls.
    ghost calls: { Self → ℕ };

    /// A number that a read raises at most to where it ends, so that a caller can bound where it reads.
    ghost reach: { Self → ℕ };

    /// The number of bytes.
    fn len(&mut self) -> Result<u64, Device>
        ensures told { IsTrue tells_bytes → IfOk result (λ n. n ≡ length (bytes self.old)) }
        ensures unmoved { Unmoved bytes images moment images_since self.old self.new }
        ensures kept { KeepsImages (images self.old) (images self.new) }
        ensures count { Counts (failures self.old) (failures self.new) result }
        ensures calls { calls self.new ≤ calls self.old + 1 }
        ensures reach { reach self.new ≤ reach self.old };

    /// Fills `out` with the bytes from `place` on. Where the store doesn't tell its bytes, a read past
    /// their end fails, but for bytes that were there when they came onto a page. After an `Err` `out` may hold
    /// anything.
    fn read_at(&mut self, place: u64, out: &mut [u8]) -> Result<(), Device>
        requires { IsTrue tells_bytes → place + length out.old ≤ length (bytes self.old) }
        ensures told { IsTrue tells_bytes
            → OnOk result (out.new ≡ take (length out.old) (drop place (bytes self.old))) }
        ensures unmoved { Unmoved bytes images moment images_since self.old self.new }
        ensures kept { KeepsImages (images self.old) (images self.new) }
        ensures count { Counts (failures self.old) (failures self.new) result }
        ensures calls { calls self.new ≤ calls self.old + 1 }
        ensures reach { reach self.new ≤ max (reach self.old) (place + length out.old) };

    /// Writes the piece over what is there, and past the end. After an `Err` a front of it is written,
    /// and of a piece of at most 8 bytes all or nothing.
    fn write_at(&mut self, place: u64, piece: &[u8]) -> Result<(), Device>
        requires end { place + length piece.now < 2 ^ 63 }
        requires begin { IsTrue tells_bytes → place ≤ length (bytes self.old) }
        ensures ok { IsTrue tells_bytes → OnOk result (bytes self.new ≡ written (bytes self.old) place piece.now) }
        ensures err { IsTrue tells_bytes
            → OnErr result (FrontWritten (bytes self.old) place piece.now (bytes self.new)) }
        ensures images { Elapses images moment images_since self.old self.new
            (AfterWrite place piece.now (images self.old)) }
        ensures count { Counts (failures self.old) (failures self.new) result }
        ensures calls { calls self.new ≤ calls self.old + 1 }
        ensures reach { reach self.new ≤ reach self.old };

    /// After it succeeded nothing is pending: a stop leaves the bytes and nothing else.
    fn sync(&mut self) -> Result<(), Device>
        ensures durable { OnOk result (Only (bytes self.new) (images self.new)) }
        ensures unmoved { Unmoved bytes images moment images_since self.old self.new }
        ensures kept { OnErr result (KeepsImages (images self.old) (images self.new)) }
        ensures count { Counts (failures self.old) (failures self.new) result }
        ensures calls { calls self.new ≤ calls self.old + 1 }
        ensures reach { reach self.new ≤ reach self.old };

    /// What it tells are bytes.
    ghost are_bytes: { (store : Self) → IsTrue tells_bytes → IsBytes (bytes store) };

    /// The bytes are one of the images.
    ghost stands: { (store : Self) → IsTrue tells_images → images store (bytes store) };

    /// This moment is one of those since an earlier one.
    ghost counts_now: { (store : Self) (t : ℕ) (c : List ℕ) → t ≤ moment store → images store c
        → images_since store t c };

    /// Since this moment there is no other.
    ghost only_now: { (store : Self) (c : List ℕ) → images_since store (moment store) c → images store c };

    /// The count has an end.
    ghost at_most_last: { (store : Self) → failures store ≤ last_count };
}
