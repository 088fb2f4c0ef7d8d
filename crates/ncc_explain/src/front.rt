//! The front of a header that is read once more, up to a fault.

ghost use Rattle.std.specs.Prelude.{◌≡◌, ◌+◌, ◌++◌, ◌≤◌, ℕ, List, [], false, length, take, drop, true, Ok, IfOk, IsTrue, OnOk};
ghost use Rattle.ncc_store.specs.Reading.{ReadsOnly};
ghost use Rattle.ncc_header.specs.declared.fault.HeaderError.TheVariants as errors;
ghost use Rattle.ncc_header.specs.Decoder.{HasFailed, Took, limit_of};
ghost use Rattle.ncc_header.specs.State.{IsSettled};
ghost use Rattle.ncc_check.specs.FromStore.{reads_for};
ghost use Rattle.ncc_explain.specs.Explaining.{SendErrorCounts};
ghost use Rattle.ncc_explain.specs.Sites.{IsFront, longest};

use ncc_header::{Decoder, Fed, HeaderError};
use ncc_lines::SendError;
use ncc_store::{Store, laws as store_laws};
use std::alloc::Global;

/// How many bytes are read at once.
const PIECE: u64 = 65_536;

/// Reads as many bytes as there is room for, from `at` on, and feeds them to the decoder: whether it goes on.
fn feed_piece<S: Store>(
    store: &mut S,
    decoder: &mut Decoder,
    at: u64,
    room: &mut [u8],
) -> Result<bool, SendError>
    requires there { IsTrue S.tells_bytes → at + length room.old ≤ length (S.bytes store.old) }
    requires fresh { ¬ HasFailed decoder.old errors.Memory }
    ensures more { result ≡ Ok true → (taken : List ℕ) → Took decoder.old taken
        → Took decoder.new (taken ++ room.new) }
    ensures settled { result ≡ Ok false → (taken : List ℕ) → Took decoder.old taken → (n : ℕ)
        × (n ≤ length room.new) × Took decoder.new (taken ++ take n room.new)
        × IsSettled (taken ++ take n room.new) (limit_of decoder.old) }
    ensures told { IsTrue S.tells_bytes
        → OnOk result (room.new ≡ take (length room.old) (drop at (S.bytes store.old))) }
    ensures fresh { OnOk result (¬ HasFailed decoder.new errors.Memory) }
    ensures limit { limit_of decoder.new ≡ limit_of decoder.old }
    ensures store { ReadsOnly S.Store store.old store.new (λ a b. SendErrorCounts a b result) true 1
        (at + length room.old) }
{
    let Ok(()) = store.read_at(at, room) else {
        return Err(SendError::Device);
    };
    match decoder.feed(room) {
        Ok(Fed::More) => Ok(true),
        Ok(Fed::Done(_)) => Ok(false),
        Err(HeaderError::Fault(_)) => Ok(false),
        Err(_) => Err(SendError::Memory),
    }
}

/// Feeds a decoder the first `end` bytes of a store, or as many as settle what the header is.
fn feed_front<S: Store>(store: &mut S, decoder: &mut Decoder, end: u64) -> Result<(), SendError>
    requires there { IsTrue S.tells_bytes → end ≤ length (S.bytes store.old) }
    requires took { Took decoder.old [] }
    requires fresh { ¬ HasFailed decoder.old errors.Memory }
    requires limit { limit_of decoder.old ≡ longest }
    ensures ok { OnOk result ((taken : List ℕ) × Took decoder.new taken
        × (IsTrue S.tells_bytes → IsFront (S.bytes store.old) end taken)) }
    ensures fresh { OnOk result (¬ HasFailed decoder.new errors.Memory) }
    ensures limit { OnOk result (limit_of decoder.new ≡ longest) }
    ensures store { ReadsOnly S.Store store.old store.new (λ a b. SendErrorCounts a b result) true (reads_for end) end }
{
    store_laws::unmoved_calls_join::<S>();
    let mut piece = [0; PIECE as usize];
    let mut at = 0;
    while at < end {
        let size = (end - at).min(PIECE);
        let room = &mut piece[..size as usize];
        if !feed_piece(store, decoder, at, room)? {
            return Ok(());
        }
        at += size;
    }
    Ok(())
}

/// A decoder that was fed the first `end` bytes of a store, or as many as settle what the header is.
pub fn front_of<S: Store>(alloc: Global, store: &mut S, end: u64) -> Result<Decoder, SendError>
    requires { IsTrue S.tells_bytes → end ≤ length (S.bytes store.old) }
    ensures ok { IfOk result (λ d. (taken : List ℕ) × Took d taken
        × (IsTrue S.tells_bytes → IsFront (S.bytes store.old) end taken)) }
    ensures fresh { IfOk result (λ d. ¬ HasFailed d errors.Memory) }
    ensures limit { IfOk result (λ d. limit_of d ≡ longest) }
    ensures store { ReadsOnly S.Store store.old store.new (λ a b. SendErrorCounts a b result) true (reads_for end) end }
{
    let mut decoder = Decoder::new(alloc, u64::MAX);
    feed_front(store, &mut decoder, end)?;
    Ok(decoder)
}
