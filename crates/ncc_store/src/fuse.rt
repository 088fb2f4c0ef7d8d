//! A store that fails from some call on.

ghost use Rattle.std.specs.Prelude.{◌≡◌, ◌+◌, ◌-◌, ◌<◌, ◌≤◌, ◌^◌, ◌⊎◌, [], max, length, take, drop, IsTrue, IfOk, OnOk, OnErr};
ghost use Rattle.ncc_values.specs.Failures.{last_count, Rose};
ghost use Rattle.ncc_store.specs.Store.{written, FrontWritten, AfterWrite, Only, KeepsImages, Elapses, Unmoved};

use crate::store::Store;
use ncc_values::{Device, device_failure};

/// The length of a piece, in bytes, of which a failed write does all or nothing.
const WHOLE: usize = 8;

/// Passes some calls to a store, and then fails each. It tells what that store tells.
#[derive(Drop)]
pub struct FuseStore<S: Store> {
    inner: S,
    left: u64,
    front: usize,
    failures: u64,
}

impl<S: Store> FuseStore<S> {
    ghost use Rattle.ncc_store.specs.Fuse.{fuse_inner, fuse_left, fuse_front, fuse_own_failures, fuse_failures, failed_front};
    ghost use Rattle.ncc_values.specs.Failures.{joint_count};

    /// Passes `left` calls. A write that fails then does nothing.
    pub fn new(inner: S, left: u64) -> FuseStore<S>
        ensures inner { fuse_inner result ≡ inner }
        ensures left { fuse_left result ≡ left }
        ensures front { fuse_front result ≡ 0 }
        ensures count { fuse_failures S.failures result ≡ S.failures inner }
    {
        FuseStore::with_front(inner, left, 0)
    }

    /// Passes `left` calls. A write of more than 8 bytes that fails then does its first `front` bytes,
    /// or all where it has fewer.
    pub fn with_front(inner: S, left: u64, front: usize) -> FuseStore<S>
        ensures inner { fuse_inner result ≡ inner }
        ensures left { fuse_left result ≡ left }
        ensures front { fuse_front result ≡ front }
        ensures count { fuse_failures S.failures result ≡ S.failures inner }
    {
        FuseStore {
            inner,
            left,
            front,
            failures: 0,
        }
    }

    /// The number of calls that it still passes.
    pub fn left(&self) -> u64
        ensures { result ≡ fuse_left self.now }
    {
        self.left
    }

    /// How often it failed itself, without the failures of the store below, at most 2^64 - 1.
    pub fn own_failures(&self) -> u64
        ensures own { result ≡ fuse_own_failures self.now }
        ensures joint { joint_count result (S.failures (fuse_inner self.now)) ≡ fuse_failures S.failures self.now }
    {
        self.failures
    }

    /// The store below, with all that was done to it.
    pub fn into_inner(self) -> S
        ensures { result ≡ fuse_inner self }
    {
        let FuseStore {
            inner,
            left: _,
            front: _,
            failures: _,
        } = self;
        inner
    }

    /// The front of a piece that a write does where it fails.
    fn front_of<'a>(&self, piece: &'a [u8]) -> &'a [u8]
        ensures { result.now ≡ failed_front (fuse_front self.now) piece.now }
    {
        if piece.len() <= WHOLE {
            return &[];
        }
        &piece[..self.front.min(piece.len())]
    }
}

impl<S: Store> Store for FuseStore<S> {
    ghost use Rattle.ncc_store.specs.Fuse.{fuse_inner, fuse_left, fuse_front, fuse_failures, failed_front, Burns};
    ghost use Rattle.ncc_values.specs.FailureLaws.{joint_count_ends};

    ghost tells_bytes = { S.tells_bytes };

    ghost tells_images = { S.tells_images };

    ghost bytes = { λ f. S.bytes (fuse_inner f) };

    ghost images = { λ f. S.images (fuse_inner f) };

    ghost moment = { λ f. S.moment (fuse_inner f) };

    ghost images_since = { λ f. S.images_since (fuse_inner f) };

    ghost failures = { fuse_failures S.failures };

    ghost calls = { λ f. last_count - fuse_left f };

    ghost reach = { λ f. S.reach (fuse_inner f) };

    ghost are_bytes = { λ f. S.are_bytes (fuse_inner f) };

    ghost stands = { λ f. S.stands (fuse_inner f) };

    ghost counts_now = { λ f. S.counts_now (fuse_inner f) };

    ghost only_now = { λ f. S.only_now (fuse_inner f) };

    ghost at_most_last = { λ f. joint_count_ends _ _ };

    fn len(&mut self) -> Result<u64, Device>
        ensures told { IsTrue S.tells_bytes → IfOk result (λ n. n ≡ length (S.bytes (fuse_inner self.old))) }
        ensures unmoved { Unmoved S.bytes S.images S.moment S.images_since (fuse_inner self.old) (fuse_inner self.new) }
        ensures kept { KeepsImages (S.images (fuse_inner self.old)) (S.images (fuse_inner self.new)) }
        ensures burns { Burns S.failures self.old self.new result }
        ensures below { S.calls (fuse_inner self.new) ≤ S.calls (fuse_inner self.old) + 1 }
        ensures reach { S.reach (fuse_inner self.new) ≤ S.reach (fuse_inner self.old) }
        ensures nothing { fuse_left self.old ≡ 0 → fuse_inner self.new ≡ fuse_inner self.old }
    {
        if self.left == 0 {
            return Err(device_failure(&mut self.failures));
        }
        self.left -= 1;
        self.inner.len()
    }

    fn read_at(&mut self, place: u64, out: &mut [u8]) -> Result<(), Device>
        requires { IsTrue S.tells_bytes → place + length out.old ≤ length (S.bytes (fuse_inner self.old)) }
        ensures told { IsTrue S.tells_bytes
            → OnOk result (out.new ≡ take (length out.old) (drop place (S.bytes (fuse_inner self.old)))) }
        ensures unmoved { Unmoved S.bytes S.images S.moment S.images_since (fuse_inner self.old) (fuse_inner self.new) }
        ensures kept { KeepsImages (S.images (fuse_inner self.old)) (S.images (fuse_inner self.new)) }
        ensures burns { Burns S.failures self.old self.new result }
        ensures below { S.calls (fuse_inner self.new) ≤ S.calls (fuse_inner self.old) + 1 }
        ensures reach { S.reach (fuse_inner self.new) ≤ max (S.reach (fuse_inner self.old)) (place + length out.old) }
        ensures nothing { fuse_left self.old ≡ 0 → fuse_inner self.new ≡ fuse_inner self.old }
    {
        if self.left == 0 {
            return Err(device_failure(&mut self.failures));
        }
        self.left -= 1;
        self.inner.read_at(place, out)
    }

    fn write_at(&mut self, place: u64, piece: &[u8]) -> Result<(), Device>
        requires end { place + length piece.now < 2 ^ 63 }
        requires begin { IsTrue S.tells_bytes → place ≤ length (S.bytes (fuse_inner self.old)) }
        ensures ok { IsTrue S.tells_bytes
            → OnOk result (S.bytes (fuse_inner self.new) ≡ written (S.bytes (fuse_inner self.old)) place piece.now) }
        ensures err { IsTrue S.tells_bytes → OnErr result
            (FrontWritten (S.bytes (fuse_inner self.old)) place piece.now (S.bytes (fuse_inner self.new))) }
        ensures images { Elapses S.images S.moment S.images_since (fuse_inner self.old) (fuse_inner self.new)
            (AfterWrite place piece.now (S.images (fuse_inner self.old))) }
        ensures burns { Burns S.failures self.old self.new result }
        ensures below { S.calls (fuse_inner self.new) ≤ S.calls (fuse_inner self.old) + 1 }
        ensures reach { S.reach (fuse_inner self.new) ≤ S.reach (fuse_inner self.old) }
        ensures nothing { fuse_left self.old ≡ 0 → failed_front (fuse_front self.old) piece.now ≡ []
            → fuse_inner self.new ≡ fuse_inner self.old }

        // A write that fails does its front, unless the store below fails too.
        ensures front { IsTrue S.tells_bytes → fuse_left self.old ≡ 0
            → (S.bytes (fuse_inner self.new)
            ≡ written (S.bytes (fuse_inner self.old)) place (failed_front (fuse_front self.old) piece.now))
            ⊎ Rose (S.failures (fuse_inner self.old)) (S.failures (fuse_inner self.new)) }
    {
        if self.left > 0 {
            self.left -= 1;
            return self.inner.write_at(place, piece);
        }
        let failed = device_failure(&mut self.failures);
        let done = self.front_of(piece);
        if done.is_empty() {
            return Err(failed);
        }
        let _ = self.inner.write_at(place, done);
        Err(failed)
    }

    fn sync(&mut self) -> Result<(), Device>
        ensures durable { OnOk result (Only (S.bytes (fuse_inner self.new)) (S.images (fuse_inner self.new))) }
        ensures unmoved { Unmoved S.bytes S.images S.moment S.images_since (fuse_inner self.old) (fuse_inner self.new) }
        ensures kept { OnErr result (KeepsImages (S.images (fuse_inner self.old)) (S.images (fuse_inner self.new))) }
        ensures burns { Burns S.failures self.old self.new result }
        ensures below { S.calls (fuse_inner self.new) ≤ S.calls (fuse_inner self.old) + 1 }
        ensures reach { S.reach (fuse_inner self.new) ≤ S.reach (fuse_inner self.old) }
        ensures nothing { fuse_left self.old ≡ 0 → fuse_inner self.new ≡ fuse_inner self.old }
    {
        if self.left == 0 {
            return Err(device_failure(&mut self.failures));
        }
        self.left -= 1;
        self.inner.sync()
    }
}
