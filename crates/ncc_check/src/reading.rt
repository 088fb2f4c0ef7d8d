//! Reading the header of a file from a store.

ghost use Rattle.std.specs.Prelude.{◌≡◌, ◌⊎◌, ◌+◌, ◌≤◌, ℕ, List, [], true, length, take, drop, min, Err, IsTrue, IfOk, IfErr, OnOk, ◌<◌};
ghost use Rattle.ncc_store.specs.Reading.{ReadsOnly};
ghost use Rattle.ncc_header.specs.Decoder.{Took, limit_of, HasFailed};
ghost use Rattle.ncc_header.specs.declared.fault.HeaderError.TheVariants as errors;
ghost use Rattle.ncc_check.specs.Checks.{CountsAs};
ghost use Rattle.ncc_check.specs.FromStore.{calls_for, reads_for, FedPiece, FailsPiece, HasEnough, ReadsHeader, IsBegun, ReadsFew};

use crate::fault::Refusal;
use ncc_header::{Decoder, Fed, Header, laws};
use ncc_store::{Store, laws as store_laws};
use std::alloc::Global;

/// How many bytes are read at once.
const PIECE: u64 = 65_536;

/// Reads as many bytes as there is room for, from `at` on, and feeds them to the decoder.
fn feed_piece<S: Store>(
    store: &mut S,
    decoder: &mut Decoder,
    at: u64,
    room: &mut [u8],
) -> Result<Fed, Refusal>
    requires there { IsTrue S.tells_bytes → at + length room.old ≤ length (S.bytes store.old) }
    requires size { length room.old ≤ 65536 }
    requires took { (taken : List ℕ) × Took decoder.old taken }
    requires fresh { ¬ HasFailed decoder.old errors.Memory }
    ensures ok { IfOk result (λ fed. FedPiece decoder.old decoder.new room.new fed) }
    ensures told { IsTrue S.tells_bytes
        → OnOk result (room.new ≡ take (length room.old) (drop at (S.bytes store.old))) }
    ensures err { IfErr result
        (FailsPiece S.tells_bytes (take (length room.old) (drop at (S.bytes store.old))) decoder.old) }
    ensures fresh { OnOk result (¬ HasFailed decoder.new errors.Memory) }
    ensures memory { result ≡ Err Refusal.Memory → (taken : List ℕ) → Took decoder.old taken
        → 8 < length taken + length room.old }
    ensures store { ReadsOnly S.Store store.old store.new (λ a b. CountsAs a b result) true 1 (at + length room.old) }
{
    store.read_at(at, room)?;
    match decoder.feed(room) {
        Ok(fed) => Ok(fed),
        Err(error) => Err(Refusal::from(error)),
    }
}

/// Feeds the decoder the first `end` bytes of the store, or as many as its header has.
fn feed_front<S: Store>(store: &mut S, decoder: &mut Decoder, end: u64) -> Result<(), Refusal>
    requires there { IsTrue S.tells_bytes → end ≤ length (S.bytes store.old) }
    requires took { Took decoder.old [] }
    requires fresh { ¬ HasFailed decoder.old errors.Memory }
    requires covers { IsTrue S.tells_bytes → (limit_of decoder.old ≤ end) ⊎ (end ≡ length (S.bytes store.old)) }
    ensures ok { OnOk result ((taken : List ℕ) × Took decoder.new taken
        × (IsTrue S.tells_bytes → HasEnough (S.bytes store.old) (limit_of decoder.old) taken)) }
    ensures limit { OnOk result (limit_of decoder.new ≡ limit_of decoder.old) }
    ensures err { IfErr result (λ e. IsTrue S.tells_bytes
        → ReadsHeader (S.bytes store.old) (limit_of decoder.old) (Err e)) }
    ensures fresh { OnOk result (¬ HasFailed decoder.new errors.Memory) }
    ensures memory { result ≡ Err Refusal.Memory → 8 < end }
    ensures store { ReadsOnly S.Store store.old store.new (λ a b. CountsAs a b result) true (reads_for end) end }
    ensures settled { IsTrue S.tells_bytes
        → ReadsFew S.Store store.old store.new (S.bytes store.old) (limit_of decoder.old) 0 }
{
    laws::stop_stays();
    laws::header_or_stop();
    store_laws::unmoved_calls_join::<S>();
    let mut piece = [0; PIECE as usize];
    let mut at = 0;
    while at < end {
        let size = (end - at).min(PIECE);
        let room = &mut piece[..size as usize];
        match feed_piece(store, decoder, at, room)? {
            Fed::More => at += size,
            Fed::Done(_) => return Ok(()),
        }
    }
    Ok(())
}

/// The header of a file of this length, which a store holds. Of the store no byte past the limit is
/// read, and none past its end.
pub fn header_of<S: Store>(
    alloc: Global,
    store: &mut S,
    limit: u64,
    file_length: u64,
) -> Result<Header, Refusal>
    requires { IsTrue S.tells_bytes → file_length ≡ length (S.bytes store.old) }
    ensures reads { IsTrue S.tells_bytes → ReadsHeader (S.bytes store.old) limit result }
    ensures begun { IfOk result IsBegun }
    ensures memory { result ≡ Err Refusal.Memory → 8 < file_length }
    ensures store { ReadsOnly S.Store store.old store.new (λ a b. CountsAs a b result) true
        (reads_for (min file_length limit)) limit }
    ensures settled { IsTrue S.tells_bytes → ReadsFew S.Store store.old store.new (S.bytes store.old) limit 0 }
{
    laws::header_or_stop();
    laws::header_is_begun();
    laws::limit_covers();
    let mut decoder = Decoder::new(alloc, limit);
    feed_front(store, &mut decoder, file_length.min(limit))?;
    match decoder.finish() {
        Ok(header) => Ok(header),
        Err(error) => Err(Refusal::from(error)),
    }
}

/// The header at the front of the file that a store holds, of at most `limit` bytes.
pub fn header_in<S: Store>(alloc: Global, store: &mut S, limit: u64) -> Result<Header, Refusal>
    ensures reads { IsTrue S.tells_bytes → ReadsHeader (S.bytes store.old) limit result }
    ensures few { IsTrue S.tells_bytes → length (S.bytes store.old) ≤ 8 → result ≡ Err Refusal.Memory → ⊥ }
    ensures store { ReadsOnly S.Store store.old store.new (λ a b. CountsAs a b result) S.tells_bytes
        (calls_for (length (S.bytes store.old)) limit) limit }
    ensures settled { IsTrue S.tells_bytes → ReadsFew S.Store store.old store.new (S.bytes store.old) limit 1 }
{
    store_laws::unmoved_calls_join::<S>();
    let file_length = store.len()?;
    header_of(alloc, store, limit, file_length)
}
