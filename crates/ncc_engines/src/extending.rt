//! `extend`: records of fill values after those that a file has.

ghost use Rattle.std.specs.Prelude.{◌≡◌, ◌⊎◌, ◌+◌, ◌<◌, ◌≤◌, max, ℕ, List, Err, IsTrue, true};
ghost use Rattle.ncc_schema.specs.Device.{Puts};
ghost use Rattle.ncc_schema.specs.Schema.{Place};
ghost use Rattle.ncc_schema.specs.declared.schema.Schema.{Schema};
ghost use Rattle.ncc_layout.specs.declared.placed_file.Placed.{Placed};
ghost use Rattle.ncc_layout.specs.Plans.{IsKnown};
ghost use Rattle.ncc_check.specs.Checks.{Opens};
ghost use Rattle.ncc_store.specs.Store.{LeavesOnly, Only, Unmoved};
ghost use Rattle.ncc_values.specs.Failures.{Rose};
ghost use Rattle.ncc_check.specs.declared.append_error.AppendError.TheVariants as AppendError;
ghost use Rattle.ncc_build.specs.Dataset.{Dataset, IsDataset};
ghost use Rattle.ncc_write.specs.Additions.{HoldsAll};
ghost use Rattle.ncc_write.specs.Extends.{HoldsSome, with_fills};
ghost use Rattle.ncc_answers.specs.Answers.{ChecksBy, Fails};
ghost use Rattle.ncc_engines.specs.Extending.{ExtendsByFew, ExtendsInto, IsFilled, IsFrontOfRefusal, LeavesAtStop, LeavesBytes, Settles, Tells};

use ncc_answers::{Answer, answer_of_sent};
use ncc_check::laws::appending::opens_as_one;
use ncc_check::{AppendError, Refusal, laws as check_laws, open};
use ncc_header::Sink;
use ncc_lines::{send_append_refusal, send_file_fault, send_records};
use ncc_store::{FileStore, Store, SystemFile};
use ncc_write::extend;
use ncc_write::laws::adding::{followed_twice, passing_file_holds_a_dataset};
use std::alloc::Global;

/// Writes how many records there are, where all were added, or the line of the refusal. It takes no memory.
fn tell<W: Sink>(extended: Result<(), AppendError>, records: u64, sink: &mut W) -> Answer
    ensures tells { (out : List ℕ) × Puts (W.put sink.old) (W.put sink.new) out × Tells extended records result out }
    ensures quiet { (result ≡ Answer.Device → ⊥) → W.failures sink.new ≡ W.failures sink.old }
    ensures still { extended ≡ Err AppendError.Device → W.calls sink.new ≡ W.calls sink.old }
    ensures device { result ≡ Answer.Device
        → (extended ≡ Err AppendError.Device) ⊎ Rose (W.failures sink.old) (W.failures sink.new) }
    ensures told { extended ≡ Err AppendError.Device → result ≡ Answer.Device }
    ensures memory { result ≡ Answer.Memory → extended ≡ Err AppendError.Memory }
    ensures untold { result ≡ Answer.Memory → sink.new ≡ sink.old }
{
    match extended {
        Ok(()) => answer_of_sent(send_records(records, sink), Answer::Passed),
        Err(error) => {
            if error == AppendError::Device {
                return Answer::Device;
            }
            if error == AppendError::Memory {
                return Answer::Memory;
            }
            answer_of_sent(send_append_refusal(error, sink), Answer::Refused)
        }
    }
}

/// Adds so many records of fill values to a file that passes with at most `limit` bytes of header, each with its own
/// syncs, and writes how many there are then. Where one is refused the line of the refusal is all that is written, and
/// those before it stand; of a file that doesn't pass the line of its first fault. With none to add the file need
/// only pass. What is pending at the start goes to the disk before the first record: so whatever stops it, at any
/// moment there is what might have been there at the start, or the file passes with some of the records. Want of
/// memory is answered before anything is written.
pub fn extend_engine<S: Store, W: Sink>(
    alloc: Global,
    store: S,
    limit: u64,
    more: u64,
    sink: &mut W,
) -> (S, Answer)
    ensures extends { IsTrue S.tells_bytes → (out : List ℕ) × Puts (W.put sink.old) (W.put sink.new) out
        × ExtendsInto (S.bytes store) limit more result.1 out }
    ensures counted { IsTrue S.tells_bytes → (out : List ℕ) × Puts (W.put sink.old) (W.put sink.new) out
        × (IsFrontOfRefusal (S.bytes store) limit more out
        ⊎ (∥ IsFilled (S.bytes store) limit more (S.bytes result.0) ∥₁)) }
    ensures bytes { IsTrue S.tells_bytes → LeavesBytes S.Store store result.0 limit more result.1 }
    ensures stop { IsTrue S.tells_bytes → LeavesAtStop S.Store store result.0 limit more }
    ensures settles { Settles S.Store store result.0 more result.1 }
    ensures dataset { IsTrue S.tells_bytes → (s : Schema) (p : Placed) → Opens (S.bytes store) limit s p
        → IsKnown s.count → (places : List Place) × (d : Dataset) × IsDataset d
        × HoldsAll (S.bytes store) limit places d }
    ensures fails { Fails W.Sink sink.old sink.new result.1 (S.failures store) (S.failures result.0) }
    ensures calls { IsTrue S.tells_bytes → (checked : ℕ) → ChecksBy (S.bytes store) limit checked
        → ExtendsByFew S.Store store result.0 limit more result.1 checked }
    ensures memory { result.1 ≡ Answer.Memory → sink.new ≡ sink.old }
    ensures reach { S.reach result.0 ≤ max (S.reach store) limit }
{
    check_laws::passing_has_no_fault();
    opens_as_one();
    followed_twice();
    passing_file_holds_a_dataset();
    match open(alloc, store, limit) {
        Ok(opened) => {
            let mut file = opened;
            let extended = extend(alloc, &mut file, more);
            let answer = tell(extended, file.records(), sink);
            (file.into_store(), answer)
        }
        Err((store, refusal)) => match refusal {
            Refusal::Fault(fault) => {
                (
                    store,
                    answer_of_sent(send_file_fault(fault, sink), Answer::Refused),
                )
            }
            Refusal::Device => (store, Answer::Device),
            Refusal::Memory => (store, Answer::Memory),
        },
    }
}

/// The same over an open file, in the file's own words; what else the engine promises holds of the store over it. A
/// file to which nothing is added need not be one that may be written.
pub fn extend_file<F: SystemFile + Drop, W: Sink>(
    alloc: Global,
    file: F,
    limit: u64,
    more: u64,
    sink: &mut W,
) -> (F, Answer)
    requires { 0 < more → F.sound file ≡ true }
    ensures extends { IsTrue F.tells_bytes → (out : List ℕ) × Puts (W.put sink.old) (W.put sink.new) out
        × ExtendsInto (F.bytes file) limit more result.1 out }
    ensures counted { IsTrue F.tells_bytes → (out : List ℕ) × Puts (W.put sink.old) (W.put sink.new) out
        × (IsFrontOfRefusal (F.bytes file) limit more out
        ⊎ (∥ IsFilled (F.bytes file) limit more (F.bytes result.0) ∥₁)) }
    ensures bytes { IsTrue F.tells_bytes → result.1 ≡ Answer.Passed
        → ∥ IsFilled (F.bytes file) limit more (F.bytes result.0) ∥₁ }
    ensures holds { IsTrue F.tells_bytes → result.1 ≡ Answer.Passed → (places : List Place) (d : Dataset)
        → IsDataset d → HoldsAll (F.bytes file) limit places d
        → ∥ HoldsAll (F.bytes result.0) limit places (with_fills d more) ∥₁ }
    ensures holds_some { IsTrue F.tells_bytes → (places : List Place) (d : Dataset)
        → IsDataset d → HoldsAll (F.bytes file) limit places d
        → ∥ HoldsSome (F.bytes result.0) limit places d more ∥₁ }
    ensures stop { IsTrue F.tells_bytes
        → (places : List Place) (d : Dataset) → IsDataset d → HoldsAll (F.bytes file) limit places d
        → (Only (F.bytes file) (F.images file)
        → LeavesOnly F.moment F.images_since file result.0 (λ c. ∥ HoldsSome c limit places d more ∥₁))
        × LeavesOnly F.moment F.images_since file result.0
        (λ c. F.images file c ⊎ (∥ HoldsSome c limit places d more ∥₁)) }
    ensures dataset { IsTrue F.tells_bytes → (s : Schema) (p : Placed) → Opens (F.bytes file) limit s p
        → IsKnown s.count → (places : List Place) × (d : Dataset) × IsDataset d
        × HoldsAll (F.bytes file) limit places d }
    ensures memory { result.1 ≡ Answer.Memory → Unmoved F.bytes F.images F.moment F.images_since file result.0 }
    ensures none { more ≡ 0 → Unmoved F.bytes F.images F.moment F.images_since file result.0 }
    ensures durable { 0 < more → result.1 ≡ Answer.Passed → Only (F.bytes result.0) (F.images result.0) }
    ensures quiet { (result.1 ≡ Answer.Device → ⊥) → W.failures sink.new ≡ W.failures sink.old }
    ensures untold { result.1 ≡ Answer.Memory → sink.new ≡ sink.old }
{
    passing_file_holds_a_dataset();
    let (store, answer) = extend_engine(alloc, FileStore::over(file, more > 0), limit, more, sink);
    (store.into_file(), answer)
}
