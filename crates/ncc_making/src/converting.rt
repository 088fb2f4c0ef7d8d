//! Converting an open file, or a store, into a new file.

ghost use Rattle.std.specs.Prelude.{◌≡◌, ◌≢◌, ◌⊎◌, ◌+◌, ◌≤◌, max, ℕ, List, Option, length, true, IsTrue, IsSome};
ghost use Rattle.ncc_values.specs.Failures.{Rose};
ghost use Rattle.ncc_schema.specs.Device.{Puts};
ghost use Rattle.ncc_schema.specs.declared.schema.Schema.{Schema};
ghost use Rattle.ncc_layout.specs.declared.placed_file.Placed.{Placed};
ghost use Rattle.ncc_store.specs.Reading.{ReadsOnly, Rests as StoreRests};
ghost use Rattle.ncc_layout.specs.Placed.{file_length_of, records_of_file};
ghost use Rattle.ncc_check.specs.Checks.{Opens};
ghost use Rattle.ncc_check.specs.declared.fault.FileFault.{FileFault};
ghost use Rattle.ncc_lines.specs.Verdicts.{file_fault_line};
ghost use Rattle.ncc_build.specs.Builds.{schema_of as planned_schema};
ghost use Rattle.ncc_build.specs.Dataset.{slabs_of};
ghost use Rattle.ncc_convert.specs.Copying.{pieces_of};
ghost use Rattle.ncc_check.specs.Files.{store_of, schema_of, placed_of};
ghost use Rattle.ncc_write.specs.Planned.{IsPlanned};
ghost use Rattle.ncc_lines.specs.Sends.{PutsFront};
ghost use Rattle.ncc_answers.specs.Answers.{ChecksBy};
ghost use Rattle.ncc_engines.specs.Planning.{IsConvertible};
ghost use Rattle.ncc_making.specs.Making.{in_version, IsFileOf, IsConverted, FailsAny, FailsInto};
ghost use Rattle.ncc_making.specs.Conversions.{ChecksAndCopies, HasAgainst, IsRefused, Lasts, Leaves, Names, Prints, PrintsPlan, Stops};
ghost use Rattle.ncc_target.specs.Names.{NameElapses, Rests, MayLeave, IsUnnamed, IsPublished};

use ncc_check::laws::appending::opens_as_one;
use ncc_check::laws::passing_has_no_fault;
use ncc_check::{NcFile, Refusal, open};
use ncc_convert::laws::open_file_holds_a_dataset;
use ncc_convert::send_converted;
use ncc_engines::{Answer, answer_of_sent, convert_engine, plan};
use ncc_header::Sink;
use ncc_lines::{Progress, send_file_fault};
use ncc_store::{Device, Store};
use ncc_target::{Entry, Target, close, make};
use ncc_values::Version;
use ncc_write::Built;
use std::alloc::Global;

/// Writes what an open file holds into a new file, by a schema that was planned for it. Where it passed the file has
/// the name and is on the disk; else it is taken away again, as far as that can be done.
fn convert_into<S: Store, T: Target, P: Progress>(
    alloc: Global,
    file: &mut NcFile<S>,
    built: Built,
    target: &mut T,
    progress: &mut P,
) -> Answer
    requires planned { IsPlanned (schema_of file.old) (placed_of file.old) (planned_schema built) }
    ensures unrefused { result ≢ Answer.Refused }
    ensures made { IsTrue T.tells_bytes → result ≡ Answer.Passed → IsFileOf S.tells_bytes
        (S.bytes (store_of file.old)) (placed_of file.old) (planned_schema built) (T.named target.new) }
    ensures durable { result ≡ Answer.Passed
        → (c : Option (List ℕ)) → T.names target.new c → c ≡ T.named target.new }
    ensures settled { result ≡ Answer.Passed → IsPublished (T.entries target.new) }
    ensures unnamed { IsTrue T.tells_bytes → result ≢ Answer.Passed
        → IsUnnamed (T.named target.old) (T.named target.new) (IsFileOf S.tells_bytes (S.bytes (store_of file.old))
        (placed_of file.old) (planned_schema built)) (T.entries target.new) }
    ensures spared { result ≡ Answer.Memory → T.named target.new ≡ T.named target.old }
    ensures names { IsTrue T.tells_bytes → NameElapses T.names T.moment T.names_since target.old target.new
        (MayLeave (T.names target.old) (IsFileOf S.tells_bytes (S.bytes (store_of file.old)) (placed_of file.old)
        (planned_schema built)) (T.entries target.new)) }
    ensures no_part { (T.entries target.old).part ≢ Entry.Made → (T.entries target.new).part ≢ Entry.Made }
    ensures no_name { result ≢ Answer.Passed
        → (T.entries target.old).name ≢ Entry.Made → (T.entries target.new).name ≢ Entry.Made }
    ensures occupied { IsSome (T.named target.old) → (result ≡ Answer.Device) × (file.new ≡ file.old)
        × Rests T.named T.names T.moment T.names_since T.entries T.makes target.old target.new }
    ensures once { T.makes target.new ≤ T.makes target.old + 1 }
    ensures store { ReadsOnly S.Store (store_of file.old) (store_of file.new)
        (FailsInto (T.failures target.old) (T.failures target.new) result) true
        (pieces_of (planned_schema built) (slabs_of (planned_schema built)))
        (file_length_of (placed_of file.old)) }
{
    let Ok(out) = make(target) else {
        return Answer::Device;
    };
    let (out, answer) = convert_engine(alloc, file, built, out, progress);
    let passed = answer == Answer::Passed;
    match close(target, out, passed) {
        Ok(()) => answer,
        Err(Device) => Answer::Device,
    }
}

/// Converts an open file, and writes the line that says so; or the line of what is against it, and then there is no new
/// file.
fn convert_file<S: Store, T: Target, W: Sink, P: Progress>(
    alloc: Global,
    file: &mut NcFile<S>,
    version: Version,
    target: &mut T,
    sink: &mut W,
    progress: &mut P,
) -> Answer
    ensures named { IsTrue T.tells_bytes → Names T.Target target.old target.new
        (IsFileOf S.tells_bytes (S.bytes (store_of file.old)) (placed_of file.old)
        (in_version version (schema_of file.old) (placed_of file.old)))
        (HasAgainst version (schema_of file.old) (records_of_file (placed_of file.old)))
        (Rose (S.failures (store_of file.old)) (S.failures (store_of file.new)))
        (Rose (W.failures sink.old) (W.failures sink.new)) result }
    ensures lasts { Lasts T.Target target.old target.new true
        (HasAgainst version (schema_of file.old) (records_of_file (placed_of file.old)))
        (Rose (S.failures (store_of file.old)) (S.failures (store_of file.new))) result }
    ensures names { IsTrue T.tells_bytes → NameElapses T.names T.moment T.names_since target.old target.new
        (MayLeave (T.names target.old) (IsFileOf S.tells_bytes (S.bytes (store_of file.old)) (placed_of file.old)
        (in_version version (schema_of file.old) (placed_of file.old))) (T.entries target.new)) }
    ensures leaves { Leaves T.Target target.old target.new (Rose (W.failures sink.old) (W.failures sink.new)) result }
    ensures occupied { IsSome (T.named target.old) → (result ≢ Answer.Passed) × (file.new ≡ file.old)
        × Rests T.named T.names T.moment T.names_since T.entries T.makes target.old target.new }
    ensures unmade { HasAgainst version (schema_of file.old) (records_of_file (placed_of file.old))
        → (target.new ≡ target.old) × (file.new ≡ file.old) }
    ensures convertible { result ≡ Answer.Passed
        → IsConvertible version (schema_of file.old) (records_of_file (placed_of file.old)) }
    ensures prints { PrintsPlan W.Sink sink.old sink.new version (schema_of file.old)
        (records_of_file (placed_of file.old)) result }
    ensures store { ReadsOnly S.Store (store_of file.old) (store_of file.new)
        (FailsAny (T.failures target.old) (T.failures target.new) W.Sink sink.old sink.new result) true
        (pieces_of (in_version version (schema_of file.old) (placed_of file.old))
        (slabs_of (in_version version (schema_of file.old) (placed_of file.old))))
        (file_length_of (placed_of file.old)) }
{
    let built = match plan(alloc, file, version, sink) {
        Ok(built) => built,
        Err(answer) => return answer,
    };
    let answer = convert_into(alloc, file, built, target, progress);
    progress.end();
    match answer {
        Answer::Passed => answer_of_sent(send_converted(version, sink), Answer::Passed),
        answer => answer,
    }
}

/// The line of a file that can't be opened, and what that comes to.
fn print_refusal<W: Sink>(refusal: Refusal, sink: &mut W) -> Answer
    ensures passed { result ≢ Answer.Passed }
    ensures quiet { result ≢ Answer.Device → W.failures sink.new ≡ W.failures sink.old }
    ensures device { result ≡ Answer.Device
        → (refusal ≡ Refusal.Device) ⊎ Rose (W.failures sink.old) (W.failures sink.new) }
    ensures store { refusal ≡ Refusal.Device → (result ≡ Answer.Device) × (sink.new ≡ sink.old) }
    ensures memory { refusal ≡ Refusal.Memory → (result ≡ Answer.Memory) × (sink.new ≡ sink.old) }
    ensures still { result ≡ Answer.Memory → sink.new ≡ sink.old }
    ensures told { result ≡ Answer.Refused → (f : FileFault) × (refusal ≡ Refusal.Fault f)
        × Puts (W.put sink.old) (W.put sink.new) (file_fault_line f) }
    ensures halted { result ≢ Answer.Refused → (W.put sink.new ≡ W.put sink.old) ⊎ ((f : FileFault)
        × (refusal ≡ Refusal.Fault f) × PutsFront (W.put sink.old) (W.put sink.new) (file_fault_line f)) }
    ensures fault { (f : FileFault) → refusal ≡ Refusal.Fault f → result ≡ Answer.Device
        → Rose (W.failures sink.old) (W.failures sink.new) }
{
    match refusal {
        Refusal::Fault(fault) => answer_of_sent(send_file_fault(fault, sink), Answer::Refused),
        Refusal::Device => Answer::Device,
        Refusal::Memory => Answer::Memory,
    }
}

/// Opens a store and converts its file; or writes the line of the file's fault. Whatever stops it, no file has the name,
/// or the whole one, or where the system gives no second names an empty one. `Device` comes where the store, the target
/// or the sink failed, also where a file has the name.
pub fn convert_store<S: Store + Drop, T: Target, W: Sink, P: Progress>(
    alloc: Global,
    store: S,
    limit: u64,
    version: Version,
    target: &mut T,
    sink: &mut W,
    progress: &mut P,
) -> (S, Answer)
    ensures named { IsTrue S.tells_bytes → IsTrue T.tells_bytes → Names T.Target target.old target.new
        (IsConverted S.tells_bytes (S.bytes store) limit version) (IsRefused (S.bytes store) limit version)
        (Rose (S.failures store) (S.failures result.0)) (Rose (W.failures sink.old) (W.failures sink.new)) result.1 }
    ensures lasts { Lasts T.Target target.old target.new S.tells_bytes (IsRefused (S.bytes store) limit version)
        (Rose (S.failures store) (S.failures result.0)) result.1 }
    ensures stops { IsTrue S.tells_bytes → IsTrue T.tells_bytes → Stops T.Target target.old target.new
        (IsConverted S.tells_bytes (S.bytes store) limit version) }
    ensures leaves { Leaves T.Target target.old target.new (Rose (W.failures sink.old) (W.failures sink.new)) result.1 }
    ensures occupied { IsSome (T.named target.old) → (result.1 ≢ Answer.Passed)
        × Rests T.named T.names T.moment T.names_since T.entries T.makes target.old target.new }
    ensures unmade { result.1 ≡ Answer.Refused → target.new ≡ target.old }
    ensures unmade_where_refused { IsTrue S.tells_bytes → IsRefused (S.bytes store) limit version
        → target.new ≡ target.old }
    ensures convertible { IsTrue S.tells_bytes → result.1 ≡ Answer.Passed → (s : Schema) × (p : Placed)
        × Opens (S.bytes store) limit s p × IsConvertible version s (records_of_file p) }
    ensures prints { Prints W.Sink sink.old sink.new S.tells_bytes (S.bytes store) limit version result.1 }
    ensures calls { IsTrue S.tells_bytes → (checked : ℕ) → ChecksBy (S.bytes store) limit checked
        → ChecksAndCopies S.Store store result.0 limit version (IsSome (T.named target.old)) checked }
    ensures reach { IsTrue S.tells_bytes
        → S.reach result.0 ≤ max (S.reach store) (max limit (length (S.bytes store))) }
    ensures rests { StoreRests S.Store store result.0
        (FailsAny (T.failures target.old) (T.failures target.new) W.Sink sink.old sink.new result.1) }
{
    passing_has_no_fault();
    opens_as_one();
    open_file_holds_a_dataset();
    match open(alloc, store, limit) {
        Ok(opened) => {
            let mut file = opened;
            let answer = convert_file(alloc, &mut file, version, target, sink, progress);
            (file.into_store(), answer)
        }
        Err((store, refusal)) => {
            let answer = print_refusal(refusal, sink);
            (store, answer)
        }
    }
}
