//! Opening a file that passes.

ghost use Rattle.std.specs.Prelude.{◌≡◌, ◌+◌, ◌≤◌, ℕ, false, length, IsTrue, IfOk, IfErr, OnOk, MatchResult, ◌≢◌};
ghost use Rattle.ncc_store.specs.Reading.{ReadsOnly};
ghost use Rattle.ncc_check.specs.Passes.{HasOwnElements};
ghost use Rattle.ncc_check.specs.Checks.{Refuses, RefusalCounts, Opens, StandsIn};
ghost use Rattle.ncc_check.specs.FromStore.{calls_for, ReadsFew};
ghost use Rattle.ncc_check.specs.Files.{store_of, schema_of, placed_of, must_reopen};

use crate::examining::{PlacedFile, examine};
use crate::fault::Refusal;
use crate::file::NcFile;
use crate::laws::passing_elements_are_apart;
use ncc_header::Header;
use ncc_store::Store;
use std::alloc::Global;

/// Opens a file that passes: its store, with all that its header says and with its variables at their
/// places. It passes exactly as `check` does; where it doesn't, the store comes back as it was.
pub fn open<S: Store>(alloc: Global, store: S, limit: u64) -> Result<NcFile<S>, (S, Refusal)>
    ensures passes { IsTrue S.tells_bytes
        → IfOk result (λ f. Opens (S.bytes store) limit (schema_of f) (placed_of f)) }
    ensures own { IsTrue S.tells_bytes → OnOk result (HasOwnElements (S.bytes store) limit) }
    ensures refused { IsTrue S.tells_bytes → IfErr result (λ e. Refuses (S.bytes store) limit e.1) }
    ensures few { IsTrue S.tells_bytes → length (S.bytes store) ≤ 8 → IfErr result (λ e. e.1 ≢ Refusal.Memory) }
    ensures stands { IfOk result (λ f. StandsIn S.tells_bytes (S.bytes (store_of f)) (schema_of f) (placed_of f)) }
    ensures fresh { IfOk result (λ f. must_reopen f ≡ false) }
    ensures store { MatchResult result
        (λ f. ReadsOnly S.Store store (store_of f) (λ a b. b ≡ a) S.tells_bytes
        (calls_for (length (S.bytes store)) limit) limit)
        (λ e. ReadsOnly S.Store store e.0 (λ a b. RefusalCounts a b e.1) S.tells_bytes
        (calls_for (length (S.bytes store)) limit) limit) }
    ensures settled { IsTrue S.tells_bytes → MatchResult result
        (λ f. ReadsFew S.Store store (store_of f) (S.bytes store) limit 1)
        (λ e. ReadsFew S.Store store e.0 (S.bytes store) limit 1) }
{
    passing_elements_are_apart();
    let mut store = store;
    match examine(alloc, &mut store, limit) {
        Ok(
            PlacedFile {
                header,
                sizes: _,
                placed,
            },
        ) => {
            let Header {
                schema,
                places: _,
                length: _,
                marks: _,
            } = header;
            Ok(NcFile::new(store, schema, placed))
        }
        Err(unsound) => Err((store, Refusal::from(unsound))),
    }
}
