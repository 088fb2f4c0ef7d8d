//! A store that reads more than it is asked for, where what comes next is likely to stand there.

ghost use Rattle.std.specs.Prelude.{◌≡◌, ◌↔◌, ◌+◌, ◌-◌, ◌<◌, ◌≤◌, ◌^◌, max, min, length, take, drop, None, Some, IsTrue, IsSome, IfOk, IfSome, OnOk, OnErr};
ghost use Rattle.ncc_values.specs.Failures.{Counts};
ghost use Rattle.ncc_store.specs.Pages.{Holds};
ghost use Rattle.ncc_store.specs.Store.{written, FrontWritten, AfterWrite, Only, KeepsImages, Elapses, Unmoved};

use crate::copying::copy_from;
use crate::store::Store;
use ncc_values::Device;
use std::alloc::{AllocError, Global};

/// How many bytes are on a page at most.
const PAGE: usize = 65_536;

/// How many bytes are on the first page of a run of reads.
const FIRST: usize = 4_096;

/// The longest read, in bytes, that is answered by a page.
const SHORT: usize = 4_096;

/// How far after the end of a short read the next one begins, at most, for which a page is read.
const NEAR: u64 = 1_024;

/// A store over another, whose bytes it reads by pages where short reads follow one another closely: the first page of
/// such a run has 4,096 bytes, and each next one twice as many, up to 65,536. Each call is at most one call of the store
/// below, and none where all bytes are on the page. It tells what that store tells. Bytes on a page are those that stood
/// there when it was read. No page goes past the length that was asked for last.
#[derive(Drop)]
pub struct AheadStore<S: Store> {
    inner: S,
    page: Vec<u8>,
    start: u64,
    held: usize,
    size: u64,
    next: Option<u64>,
    ahead: usize,
    ghost long: { length page.items ≡ 65536 },
    ghost inside: { held ≤ 65536 },
    ghost least: { 4096 ≤ ahead },
    ghost most: { ahead ≤ 65536 },
    ghost known: { IsTrue S.tells_bytes → size ≤ length (S.bytes inner) },
    ghost holds: { IsTrue S.tells_bytes → Holds (S.bytes inner) page.items start held },
}

/// Reads so many bytes from a place on to the front of a page. One call of the store.
fn read_page<S: Store>(
    store: &mut S,
    page: &mut [u8],
    place: u64,
    count: usize,
) -> Result<(), Device>
    requires room { count ≤ length page.old }
    requires there { IsTrue S.tells_bytes → place + count ≤ length (S.bytes store.old) }
    ensures same { length page.new ≡ length page.old }
    ensures holds { IsTrue S.tells_bytes → OnOk result (Holds (S.bytes store.old) page.new place count) }
    ensures unmoved { Unmoved S.bytes S.images S.moment S.images_since store.old store.new }
    ensures kept { KeepsImages (S.images store.old) (S.images store.new) }
    ensures count { Counts (S.failures store.old) (S.failures store.new) result }
    ensures calls { S.calls store.new ≤ S.calls store.old + 1 }
    ensures reach { S.reach store.new ≤ max (S.reach store.old) (place + count) }
{
    store.read_at(place, &mut page[..count])
}

/// Where a read of so many bytes ends, where it is short.
fn end_of(place: u64, count: usize) -> Option<u64>
    ensures short { count ≤ 4096 → place + count < 2 ^ 64 → result ≡ Some (place + count) }
    ensures long { 4096 < count → result ≡ None }
{
    if count > SHORT {
        return None;
    }
    place.checked_add(count as u64)
}

impl<S: Store + Drop> AheadStore<S> {
    ghost use Rattle.ncc_store.specs.Ahead.{ahead_inner, ahead_size};

    /// A store over that one, with nothing on its page. An error is want of memory for the page.
    pub fn new(alloc: Global, inner: S) -> Result<AheadStore<S>, AllocError>
        ensures inner { IfOk result (λ f. ahead_inner f ≡ inner) }
        ensures size { IfOk result (λ f. ahead_size f ≡ 0) }
    {
        let page = vec![in alloc; 0; PAGE]?;
        Ok(AheadStore {
            inner,
            page,
            start: 0,
            held: 0,
            size: 0,
            next: None,
            ahead: FIRST,
        })
    }
}

impl<S: Store> AheadStore<S> {
    ghost use Rattle.ncc_store.specs.Ahead.{ahead_inner, ahead_next, ahead_page, ahead_size, IsAfter, IsHeld, IsNear};

    /// The store below, with all that was done to it.
    pub fn into_inner(self) -> S
        ensures { result ≡ ahead_inner self }
    {
        let AheadStore {
            inner,
            page: _,
            start: _,
            held: _,
            size: _,
            next: _,
            ahead: _,
        } = self;
        inner
    }

    /// Where these bytes begin on the page, where all of them are there.
    fn held_at(&self, place: u64, count: usize) -> Option<usize>
        ensures some { IfSome result (λ at. (self.now.start + at ≡ place) × (at + count ≤ self.now.held)) }
        ensures none { IsHeld self.now place count → IsSome result }
    {
        if place < self.start || place - self.start > self.held as u64 {
            return None;
        }
        let at = (place - self.start) as usize;
        if count > self.held - at {
            return None;
        }
        Some(at)
    }

    /// Whether a place is near the end of the last read, where that was short.
    fn is_near(&self, place: u64) -> bool
        ensures { IsTrue result ↔ IsAfter (ahead_next self.now) place }
    {
        match self.next {
            Some(next) => place >= next && place - next <= NEAR,
            None => false,
        }
    }

    /// How many bytes are read from a place on for a read of so many: a page, or none where the read stands alone.
    fn ahead_of(&self, place: u64, count: usize) -> usize
        ensures page { result ≤ 65536 }
        ensures inside { 0 < result → (count ≤ result) × (place + result ≤ self.now.size) }
        ensures near { IsNear self.now place count → result ≡ min (ahead_page self.now) (self.now.size - place) }
        ensures far { (IsNear self.now place count → ⊥) → result ≡ 0 }
    {
        if count == 0 || count > SHORT || !self.is_near(place) {
            return 0;
        }
        if place > self.size || count as u64 > self.size - place {
            return 0;
        }
        (self.size - place).min(self.ahead as u64) as usize
    }

    /// Reads a page: so many bytes from a place on.
    fn turn(&mut self, place: u64, count: usize) -> Result<(), Device>
        requires page { count ≤ 65536 }
        requires inside { place + count ≤ self.old.size }
        ensures held { OnOk result ((self.new.start ≡ place) × (self.new.held ≡ count)) }
        ensures size { self.new.size ≡ self.old.size }
        ensures ahead { self.new.ahead ≡ self.old.ahead }
        ensures unmoved { Unmoved S.bytes S.images S.moment S.images_since (ahead_inner self.old) (ahead_inner self.new) }
        ensures kept { KeepsImages (S.images (ahead_inner self.old)) (S.images (ahead_inner self.new)) }
        ensures count { Counts (S.failures (ahead_inner self.old)) (S.failures (ahead_inner self.new)) result }
        ensures calls { S.calls (ahead_inner self.new) ≤ S.calls (ahead_inner self.old) + 1 }
        ensures reach { S.reach (ahead_inner self.new) ≤ max (S.reach (ahead_inner self.old)) (place + count) }
    {
        self.held = 0;
        read_page(&mut self.inner, &mut self.page, place, count)?;
        self.start = place;
        self.held = count;
        Ok(())
    }

    /// Reads what isn't held, a page at once where that is worth it.
    #[inline(never)]
    fn read_on(&mut self, place: u64, out: &mut [u8]) -> Result<(), Device>
        requires { IsTrue S.tells_bytes → place + length out.old ≤ length (S.bytes (ahead_inner self.old)) }
        ensures told { IsTrue S.tells_bytes
            → OnOk result (out.new ≡ take (length out.old) (drop place (S.bytes (ahead_inner self.old)))) }
        ensures size { self.new.size ≡ self.old.size }
        ensures turned { IsNear self.old place (length out.old) → OnOk result (IsHeld self.new
            place (min (ahead_page self.old) (ahead_size self.old - place))) }
        ensures unmoved { Unmoved S.bytes S.images S.moment S.images_since (ahead_inner self.old) (ahead_inner self.new) }
        ensures kept { KeepsImages (S.images (ahead_inner self.old)) (S.images (ahead_inner self.new)) }
        ensures count { Counts (S.failures (ahead_inner self.old)) (S.failures (ahead_inner self.new)) result }
        ensures calls { S.calls (ahead_inner self.new) ≤ S.calls (ahead_inner self.old) + 1 }
        ensures reach { S.reach (ahead_inner self.new)
            ≤ max (S.reach (ahead_inner self.old)) (max (place + length out.old) self.old.size) }
        ensures far { (IsNear self.old place (length out.old) → ⊥)
            → S.reach (ahead_inner self.new) ≤ max (S.reach (ahead_inner self.old)) (place + length out.old) }
    {
        let count = self.ahead_of(place, out.len());
        if count == 0 {
            self.ahead = FIRST;
            return self.inner.read_at(place, out);
        }
        self.turn(place, count)?;
        self.ahead = (self.ahead * 2).min(PAGE);
        copy_from(&self.page, 0, out);
        Ok(())
    }
}

impl<S: Store> Store for AheadStore<S> {
    ghost use Rattle.ncc_store.specs.Ahead.{ahead_inner, ahead_next, ahead_page, ahead_size, IsHeld, IsNear};

    ghost tells_bytes = { S.tells_bytes };

    ghost tells_images = { S.tells_images };

    ghost bytes = { λ f. S.bytes (ahead_inner f) };

    ghost images = { λ f. S.images (ahead_inner f) };

    ghost moment = { λ f. S.moment (ahead_inner f) };

    ghost images_since = { λ f. S.images_since (ahead_inner f) };

    ghost failures = { λ f. S.failures (ahead_inner f) };

    ghost calls = { λ f. S.calls (ahead_inner f) };

    ghost reach = { λ f. 0 };

    ghost are_bytes = { λ f. S.are_bytes (ahead_inner f) };

    ghost stands = { λ f. S.stands (ahead_inner f) };

    ghost counts_now = { λ f. S.counts_now (ahead_inner f) };

    ghost only_now = { λ f. S.only_now (ahead_inner f) };

    ghost at_most_last = { λ f. S.at_most_last (ahead_inner f) };

    fn len(&mut self) -> Result<u64, Device>
        ensures told { IsTrue S.tells_bytes → IfOk result (λ n. n ≡ length (S.bytes (ahead_inner self.old))) }
        ensures size { IfOk result (λ n. ahead_size self.new ≡ n) }
        ensures unmoved { Unmoved S.bytes S.images S.moment S.images_since (ahead_inner self.old) (ahead_inner self.new) }
        ensures kept { KeepsImages (S.images (ahead_inner self.old)) (S.images (ahead_inner self.new)) }
        ensures count { Counts (S.failures (ahead_inner self.old)) (S.failures (ahead_inner self.new)) result }
        ensures below { S.calls (ahead_inner self.new) ≤ S.calls (ahead_inner self.old) + 1 }
        ensures reach { S.reach (ahead_inner self.new) ≤ S.reach (ahead_inner self.old) }
    {
        let size = self.inner.len()?;
        self.size = size;
        Ok(size)
    }

    #[inline(always)]
    fn read_at(&mut self, place: u64, out: &mut [u8]) -> Result<(), Device>
        requires { IsTrue S.tells_bytes → place + length out.old ≤ length (S.bytes (ahead_inner self.old)) }
        ensures told { IsTrue S.tells_bytes
            → OnOk result (out.new ≡ take (length out.old) (drop place (S.bytes (ahead_inner self.old)))) }
        ensures size { ahead_size self.new ≡ ahead_size self.old }
        ensures next { length out.old ≤ 4096 → place + length out.old < 2 ^ 64
            → OnOk result (ahead_next self.new ≡ Some (place + length out.old)) }
        ensures alone { 4096 < length out.old → OnOk result (ahead_next self.new ≡ None) }
        ensures turned { IsNear self.old place (length out.old)
            → (IsHeld self.old place (length out.old) → ⊥) → OnOk result
            (IsHeld self.new place (min (ahead_page self.old) (ahead_size self.old - place))) }
        ensures unmoved { Unmoved S.bytes S.images S.moment S.images_since (ahead_inner self.old) (ahead_inner self.new) }
        ensures kept { KeepsImages (S.images (ahead_inner self.old)) (S.images (ahead_inner self.new)) }
        ensures count { Counts (S.failures (ahead_inner self.old)) (S.failures (ahead_inner self.new)) result }
        ensures below { S.calls (ahead_inner self.new) ≤ S.calls (ahead_inner self.old) + 1 }
        ensures none { IsHeld self.old place (length out.old) → ahead_inner self.new ≡ ahead_inner self.old }
        ensures reach { S.reach (ahead_inner self.new)
            ≤ max (S.reach (ahead_inner self.old)) (max (place + length out.old) (ahead_size self.old)) }
        ensures far { (IsNear self.old place (length out.old) → ⊥)
            → S.reach (ahead_inner self.new) ≤ max (S.reach (ahead_inner self.old)) (place + length out.old) }
    {
        match self.held_at(place, out.len()) {
            Some(at) => copy_from(&self.page, at, out),
            None => self.read_on(place, out)?,
        }
        self.next = end_of(place, out.len());
        Ok(())
    }

    fn write_at(&mut self, place: u64, piece: &[u8]) -> Result<(), Device>
        requires end { place + length piece.now < 2 ^ 63 }
        requires begin { IsTrue S.tells_bytes → place ≤ length (S.bytes (ahead_inner self.old)) }
        ensures ok { IsTrue S.tells_bytes → OnOk result
            (S.bytes (ahead_inner self.new) ≡ written (S.bytes (ahead_inner self.old)) place piece.now) }
        ensures err { IsTrue S.tells_bytes → OnErr result
            (FrontWritten (S.bytes (ahead_inner self.old)) place piece.now (S.bytes (ahead_inner self.new))) }
        ensures images { Elapses S.images S.moment S.images_since (ahead_inner self.old) (ahead_inner self.new)
            (AfterWrite place piece.now (S.images (ahead_inner self.old))) }
        ensures count { Counts (S.failures (ahead_inner self.old)) (S.failures (ahead_inner self.new)) result }
        ensures below { S.calls (ahead_inner self.new) ≤ S.calls (ahead_inner self.old) + 1 }
        ensures reach { S.reach (ahead_inner self.new) ≤ S.reach (ahead_inner self.old) }
    {
        (self.held, self.size) = (0, 0);
        self.inner.write_at(place, piece)
    }

    fn sync(&mut self) -> Result<(), Device>
        ensures durable { OnOk result (Only (S.bytes (ahead_inner self.new)) (S.images (ahead_inner self.new))) }
        ensures unmoved { Unmoved S.bytes S.images S.moment S.images_since (ahead_inner self.old) (ahead_inner self.new) }
        ensures kept { OnErr result (KeepsImages (S.images (ahead_inner self.old)) (S.images (ahead_inner self.new))) }
        ensures count { Counts (S.failures (ahead_inner self.old)) (S.failures (ahead_inner self.new)) result }
        ensures below { S.calls (ahead_inner self.new) ≤ S.calls (ahead_inner self.old) + 1 }
        ensures reach { S.reach (ahead_inner self.new) ≤ S.reach (ahead_inner self.old) }
    {
        self.inner.sync()
    }
}
