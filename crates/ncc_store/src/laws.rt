//! Laws of what a stop may leave, each the contract of a function that does nothing.

ghost use Rattle.std.specs.Prelude.{◌≡◌, ◌⊎◌, ◌↔◌, ℕ, ◌+◌, ◌≤◌, List, length, IsTrue};
ghost use Rattle.ncc_store.specs.Store.{written, AfterWrite, Only, Elapses, Unmoved};

use crate::store::Store;

/// Where nothing was pending, a write of at most 8 bytes inside the bytes leaves the old bytes or the new.
pub fn short_write_is_whole()
    ensures { (place : ℕ) (piece old c : List ℕ) → length piece ≤ 8 → place + length piece ≤ length old
        → AfterWrite place piece (λ d. d ≡ old) c → (c ≡ old) ⊎ (c ≡ written old place piece) }
{}

/// The same of every moment since such a write began, also inside the call.
pub fn short_write_at_any_moment<S: Store>()
    ensures { (old new : S) (place : ℕ) (piece c : List ℕ) → Only (S.bytes old) (S.images old)
        → length piece ≤ 8 → place + length piece ≤ length (S.bytes old)
        → Elapses S.images S.moment S.images_since old new (AfterWrite place piece (S.images old))
        → S.images_since new (S.moment old) c → (c ≡ S.bytes old) ⊎ (c ≡ written (S.bytes old) place piece) }
{}

/// Where nothing is pending, a stop leaves the bytes and nothing else: now, and since now.
pub fn settled_store_leaves_its_bytes<S: Store>()
    ensures now { (store : S) (c : List ℕ) → IsTrue S.tells_images → Only (S.bytes store) (S.images store)
        → S.images store c ↔ (c ≡ S.bytes store) }
    ensures since { (store : S) (c : List ℕ) → IsTrue S.tells_images → Only (S.bytes store) (S.images store)
        → S.images_since store (S.moment store) c ↔ (c ≡ S.bytes store) }
{}

/// What a stop may have left at the moments of a run, and then of a write: what it might have left of the
/// run, or what it may leave of the write.
pub fn write_goes_on<S: Store>()
    ensures { (old mid new : S) (place : ℕ) (piece c : List ℕ) → S.moment old ≤ S.moment mid
        → Elapses S.images S.moment S.images_since mid new (AfterWrite place piece (S.images mid))
        → S.images_since new (S.moment old) c
        → S.images_since mid (S.moment old) c ⊎ AfterWrite place piece (S.images mid) c }
{}

/// Calls that write nothing are together such a call.
pub fn unmoved_calls_join<S: Store>()
    ensures { (old mid new : S) → Unmoved S.bytes S.images S.moment S.images_since old mid
        → Unmoved S.bytes S.images S.moment S.images_since mid new
        → Unmoved S.bytes S.images S.moment S.images_since old new }
{}
