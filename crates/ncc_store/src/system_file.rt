//! What a store asks of a file of the system, call by call.

ghost use Rattle.std.specs.Prelude.{◌≡◌, ◌+◌, ◌<◌, ◌≤◌, ◌^◌, [], true, false, Bool, List, ℕ, length, take, drop, IsTrue, IfOk, OnOk, OnErr};
ghost use Rattle.ncc_values.specs.Failures.{Rose};
ghost use Rattle.ncc_values.specs.Numbers.{IsBytes};
ghost use Rattle.ncc_store.specs.Store.{written, FrontWritten, AfterWrite, Only, KeepsImages, Elapses, Unmoved};

use std::io;

/// The length of a piece, in bytes, that goes out by one call of the system.
pub(crate) const WHOLE: usize = 8;

/// An open file, by calls of the system. A call that fails answers why. It is written and settled only where it
/// may be, and not after a write or a `settle` that failed.
pub trait SystemFile {
    /// Whether it tells its bytes.
    ghost tells_bytes: { Bool };

    /// Whether it tells what a stop may leave.
    ghost tells_images: { Bool };

    ghost bytes: { Self → List ℕ };

    /// What a stop at this moment may leave.
    ghost images: { Self → List ℕ → Type 0 };

    /// The moment, as a number that doesn't fall.
    ghost moment: { Self → ℕ };

    /// What a stop at some moment from that one on might have left.
    ghost images_since: { Self → ℕ → List ℕ → Type 0 };

    /// It may be written: no write and no `settle` failed.
    ghost sound: { Self → Bool };

    /// Whether it counts each of its calls that fails.
    ghost tells_failures: { Bool };

    /// The calls that failed, where it counts them. A call that succeeds adds none.
    ghost failed: { Self → ℕ };

    /// A number that grows by at most one at each call.
    ghost calls: { Self → ℕ };

    /// The number of bytes.
    fn size(&mut self) -> io::Result<u64>
        ensures told { IsTrue tells_bytes → IfOk result (λ n. n ≡ length (bytes self.old)) }
        ensures unmoved { Unmoved bytes images moment images_since self.old self.new }
        ensures kept { KeepsImages (images self.old) (images self.new) }
        ensures sound { sound self.new ≡ sound self.old }
        ensures once { OnOk result (failed self.new ≡ failed self.old) }
        ensures rose { IsTrue tells_failures → OnErr result (Rose (failed self.old) (failed self.new)) }
        ensures calls { calls self.new ≤ calls self.old + 1 };

    /// Fills `out` with the bytes from `place` on.
    fn fill(&mut self, place: u64, out: &mut [u8]) -> io::Result<()>
        ensures told { IsTrue tells_bytes
            → OnOk result (out.new ≡ take (length out.old) (drop place (bytes self.old))) }
        ensures unmoved { Unmoved bytes images moment images_since self.old self.new }
        ensures kept { KeepsImages (images self.old) (images self.new) }
        ensures sound { sound self.new ≡ sound self.old }
        ensures once { OnOk result (failed self.new ≡ failed self.old) }
        ensures rose { IsTrue tells_failures → OnErr result (Rose (failed self.old) (failed self.new)) }
        ensures calls { calls self.new ≤ calls self.old + 1 };

    /// Writes a front of the piece, at least one byte where there is one, and answers how many. Of at most 8
    /// bytes it writes all, or it fails. After an `Err` a front is written, and of at most 8 bytes all or nothing.
    fn write_some(&mut self, place: u64, piece: &[u8]) -> io::Result<usize>
        requires end { place + length piece.now < 2 ^ 63 }
        requires begin { IsTrue tells_bytes → place ≤ length (bytes self.old) }
        requires sound { sound self.old ≡ true }
        ensures some { IfOk result (λ n. (n ≤ length piece.now) × (0 < length piece.now → 0 < n)) }
        ensures short { length piece.now ≤ 8 → IfOk result (λ n. n ≡ length piece.now) }
        ensures ok { IsTrue tells_bytes
            → IfOk result (λ n. bytes self.new ≡ written (bytes self.old) place (take n piece.now)) }
        ensures err { IsTrue tells_bytes
            → OnErr result (FrontWritten (bytes self.old) place piece.now (bytes self.new)) }
        ensures images { Elapses images moment images_since self.old self.new
            (AfterWrite place piece.now (images self.old)) }
        ensures sound { OnOk result (sound self.new ≡ true) }
        ensures ended { OnErr result (sound self.new ≡ false) }
        ensures once { OnOk result (failed self.new ≡ failed self.old) }
        ensures rose { IsTrue tells_failures → OnErr result (Rose (failed self.old) (failed self.new)) }
        ensures calls { calls self.new ≤ calls self.old + 1 };

    /// Leaves nothing pending.
    fn settle(&mut self) -> io::Result<()>
        requires { sound self.old ≡ true }
        ensures durable { OnOk result (Only (bytes self.new) (images self.new)) }
        ensures unmoved { Unmoved bytes images moment images_since self.old self.new }
        ensures kept { OnErr result (KeepsImages (images self.old) (images self.new)) }
        ensures sound { OnOk result (sound self.new ≡ true) }
        ensures ended { OnErr result (sound self.new ≡ false) }
        ensures once { OnOk result (failed self.new ≡ failed self.old) }
        ensures rose { IsTrue tells_failures → OnErr result (Rose (failed self.old) (failed self.new)) }
        ensures calls { calls self.new ≤ calls self.old + 1 };

    /// What it tells are bytes.
    ghost are_bytes: { (file : Self) → IsTrue tells_bytes → IsBytes (bytes file) };

    /// The bytes are one of the images.
    ghost stands: { (file : Self) → IsTrue tells_images → images file (bytes file) };

    /// This moment is one of those since an earlier one.
    ghost counts_now: { (file : Self) (t : ℕ) (c : List ℕ) → t ≤ moment file → images file c → images_since file t c };

    /// Since this moment there is no other.
    ghost only_now: { (file : Self) (c : List ℕ) → images_since file (moment file) c → images file c };
}

/// Writes the whole piece, by as many writes as it takes: by one, where it has at most 8 bytes.
pub(crate) fn write_whole<F: SystemFile>(file: &mut F, place: u64, piece: &[u8]) -> io::Result<()>
    requires end { place + length piece.now < 2 ^ 63 }
    requires begin { IsTrue F.tells_bytes → place ≤ length (F.bytes file.old) }
    requires sound { F.sound file.old ≡ true }
    ensures ok { IsTrue F.tells_bytes → OnOk result (F.bytes file.new ≡ written (F.bytes file.old) place piece.now) }
    ensures err { IsTrue F.tells_bytes
        → OnErr result (FrontWritten (F.bytes file.old) place piece.now (F.bytes file.new)) }
    ensures images { Elapses F.images F.moment F.images_since file.old file.new
        (AfterWrite place piece.now (F.images file.old)) }
    ensures sound { OnOk result (F.sound file.new ≡ true) }
    ensures ended { OnErr result (F.sound file.new ≡ false) }
    ensures once { OnOk result (F.failed file.new ≡ F.failed file.old) }
    ensures rose { IsTrue F.tells_failures → OnErr result (Rose (F.failed file.old) (F.failed file.new)) }
    ensures one_call { length piece.now ≤ 8 → F.calls file.new ≤ F.calls file.old + 1 }
    ensures calls { F.calls file.new ≤ F.calls file.old + length piece.now }
{
    let mut at = place;
    let mut rest = piece;
    while !rest.is_empty() {
        let n = file.write_some(at, rest)?;
        let (_written, after) = rest.split_at(n);
        at += n as u64;
        rest = after;
    }
    Ok(())
}
