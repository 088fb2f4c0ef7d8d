//! The commands' engines with the program's limit of a header's bytes.

ghost use Rattle.std.specs.Prelude.{◌≡◌, ◌≢◌, ◌⊎◌, ◌+◌, ◌<◌, ◌≤◌, max, List, ℕ, Some, Ok, length, true, IsTrue, IsSome, IfOk, IfSome};
ghost use Rattle.ncc_values.specs.Failures.{Counts, Rose};
ghost use Rattle.ncc_schema.specs.Device.{AsksFew, LosesAtMost, Puts};
ghost use Rattle.ncc_schema.specs.Schema.{Place};
ghost use Rattle.ncc_schema.specs.declared.schema.Header.{Header};
ghost use Rattle.ncc_schema.specs.declared.schema.Schema.{Schema};
ghost use Rattle.ncc_layout.specs.declared.placed_file.Placed.{Placed};
ghost use Rattle.ncc_layout.specs.Plans.{IsKnown};
ghost use Rattle.ncc_check.specs.Checks.{Opens};
ghost use Rattle.ncc_header.specs.Answers.{Begins, IsLeft};
ghost use Rattle.ncc_store.specs.File.{file_of, file_ready, file_failures};
ghost use Rattle.ncc_store.specs.Reading.{Rests as StoreRests};
ghost use Rattle.ncc_check.specs.Passes.{HasOwnElements};
ghost use Rattle.ncc_build.specs.Dataset.{Dataset, IsDataset};
ghost use Rattle.ncc_write.specs.Additions.{HoldsAll};
ghost use Rattle.ncc_check.specs.Checks.{Opens};
ghost use Rattle.ncc_layout.specs.Placed.{records_of_file};
ghost use Rattle.ncc_layout.specs.declared.placed_file.Placed.{Placed};
ghost use Rattle.ncc_schema.specs.declared.schema.Schema.{Schema};
ghost use Rattle.ncc_engines.specs.Planning.{IsConvertible};
ghost use Rattle.ncc_making.specs.Making.{IsConverted, FailsAny};
ghost use Rattle.ncc_target.specs.Names.{Rests};
ghost use Rattle.ncc_answers.specs.Answers.{Blames, ChecksBy, Fails};
ghost use Rattle.ncc_making.specs.Conversions.{ChecksAndCopies, IsRefused, Lasts, Leaves, Names, Prints, Stops};
ghost use Rattle.ncc_engines.specs.Extending.{ExtendsByFew, ExtendsInto, IsFilled, IsFrontOfRefusal, LeavesAtStop, LeavesBytes, Settles};
ghost use Rattle.ncc_engines.specs.Listing.{IsFaultOf, Lists};
ghost use Rattle.ncc_engines.specs.Selecting.{IsCsvText, SelectsByFew, SelectsInto};
ghost use Rattle.ncc_json.specs.declared.wording.Wording.{Wording};
ghost use Rattle.ncc_batch.specs.Answered.{SendsOne, TextFails};
ghost use Rattle.ncc_answers.specs.declared.form.Form.{Form};
ghost use Rattle.ncc_answers.specs.declared.work.Work.{Work};

use ncc_batch::list_source;
use ncc_engines::{Answer, csv_engine, extend_engine, list_engine};
use ncc_header::{Device, Sink, Source};
use ncc_lines::{FloatStyle, Progress};
use ncc_making::{Target, convert_store};
use ncc_store::{FileStore, Store, SystemFile};
use ncc_tasks::{Converting, Extending, LIMIT, Selecting};
use std::alloc::Global;

/// Lists a source onto a sink, with the program's limit.
pub fn listed<R: Source, W: Sink>(
    alloc: Global,
    source: &mut R,
    style: FloatStyle,
    sink: &mut W,
) -> Answer
    ensures lists { IfSome (R.left source.old) (λ input. (out : List ℕ)
        × Puts (W.put sink.old) (W.put sink.new) out × Lists input LIMIT style result out) }
    ensures memory { (input text : List ℕ) → R.left source.old ≡ Some input → IsFaultOf input LIMIT text
        → result ≡ Answer.Memory → sink.new ≡ sink.old }
    ensures exactly { result ≡ Answer.Passed → IfSome (R.left source.old) (λ input.
        (h : Header) × Begins input LIMIT h × IsLeft (R.left source.new) input h) }
    ensures most { LosesAtMost (R.left source.old) (R.left source.new) LIMIT }
    ensures calls { AsksFew (R.left source.old) (R.left source.new) (R.calls source.old) (R.calls source.new) }
    ensures fails { Fails W.Sink sink.old sink.new result (R.failures source.old) (R.failures source.new) }
{
    list_engine(alloc, source, LIMIT, style, sink)
}

/// The same as an object with this path.
pub fn listed_object<R: Source, W: Sink>(
    alloc: Global,
    source: &mut R,
    path: &[u8],
    style: FloatStyle,
    sink: &mut W,
) -> Result<Answer, Device>
    ensures sends { IfSome (R.left source.old) (λ input. SendsOne (Work.List LIMIT style Wording.Members) Form.Object
        path.now (Some input) (W.put sink.old) (W.put sink.new) result) }
    ensures exactly { result ≡ Ok Answer.Passed → IfSome (R.left source.old) (λ input.
        (h : Header) × Begins input LIMIT h × IsLeft (R.left source.new) input h) }
    ensures most { LosesAtMost (R.left source.old) (R.left source.new) LIMIT }
    ensures calls { AsksFew (R.left source.old) (R.left source.new) (R.calls source.old) (R.calls source.new) }
    ensures fails { IfOk result (λ a. TextFails a (R.failures source.old) (R.failures source.new)) }
    ensures count { Counts (W.failures sink.old) (W.failures sink.new) result }
{
    list_source(alloc, source, path, LIMIT, style, sink)
}

/// Prints what is picked of a variable onto a sink, with the program's limit.
pub fn selected<S: Store, W: Sink, P: Progress>(
    alloc: Global,
    store: S,
    selecting: Selecting<'_>,
    sink: &mut W,
    progress: &mut P,
) -> (S, Answer)
    ensures selects { IsTrue S.tells_bytes → (out : List ℕ) × Puts (W.put sink.old) (W.put sink.new) out
        × SelectsInto (S.bytes store) LIMIT selecting.entry.variable.now selecting.entry.pick selecting.entry.style
        selecting.entry.texts result.1 out }
    ensures memory { IsTrue S.tells_bytes → (text : List ℕ) → IsCsvText (S.bytes store) LIMIT
        selecting.entry.variable.now selecting.entry.pick selecting.entry.style selecting.entry.texts Answer.Refused text
        → result.1 ≡ Answer.Memory → sink.new ≡ sink.old }
    ensures own { IsTrue S.tells_bytes → result.1 ≡ Answer.Passed → HasOwnElements (S.bytes store) LIMIT }
    ensures calls { IsTrue S.tells_bytes → (checked : ℕ) → ChecksBy (S.bytes store) LIMIT checked
        → SelectsByFew S.Store store result.0 LIMIT selecting.entry.variable.now selecting.entry.pick checked }
    ensures rests { StoreRests S.Store store result.0 (Blames W.Sink sink.old sink.new result.1) }
{
    let Selecting {
        file: _,
        variable,
        pick,
        style,
        texts,
    } = selecting;
    csv_engine(
        alloc, store, LIMIT, variable, pick, style, texts, sink, progress,
    )
}

/// Adds records of fill values, with the program's limit.
pub fn extended<S: Store, W: Sink>(
    alloc: Global,
    store: S,
    extending: Extending<'_>,
    sink: &mut W,
) -> (S, Answer)
    ensures extends { IsTrue S.tells_bytes → (out : List ℕ) × Puts (W.put sink.old) (W.put sink.new) out
        × ExtendsInto (S.bytes store) LIMIT extending.entry.more result.1 out }
    ensures counted { IsTrue S.tells_bytes → (out : List ℕ) × Puts (W.put sink.old) (W.put sink.new) out
        × (IsFrontOfRefusal (S.bytes store) LIMIT extending.entry.more out
        ⊎ (∥ IsFilled (S.bytes store) LIMIT extending.entry.more (S.bytes result.0) ∥₁)) }
    ensures bytes { IsTrue S.tells_bytes → LeavesBytes S.Store store result.0 LIMIT extending.entry.more result.1 }
    ensures stop { IsTrue S.tells_bytes → LeavesAtStop S.Store store result.0 LIMIT extending.entry.more }
    ensures settles { Settles S.Store store result.0 extending.entry.more result.1 }
    ensures dataset { IsTrue S.tells_bytes → (s : Schema) (p : Placed) → Opens (S.bytes store) LIMIT s p
        → IsKnown s.count → (places : List Place) × (d : Dataset) × IsDataset d
        × HoldsAll (S.bytes store) LIMIT places d }
    ensures fails { Fails W.Sink sink.old sink.new result.1 (S.failures store) (S.failures result.0) }
    ensures calls { IsTrue S.tells_bytes → (checked : ℕ) → ChecksBy (S.bytes store) LIMIT checked
        → ExtendsByFew S.Store store result.0 LIMIT extending.entry.more result.1 checked }
    ensures memory { result.1 ≡ Answer.Memory → sink.new ≡ sink.old }
    ensures reach { S.reach result.0 ≤ max (S.reach store) LIMIT }
{
    extend_engine(alloc, store, LIMIT, extending.more, sink)
}

/// The same over any file. One of the disk that is to be written has its lock from before it is checked to the end.
pub fn extended_file<F: SystemFile, W: Sink>(
    alloc: Global,
    store: FileStore<F>,
    extending: Extending<'_>,
    sink: &mut W,
) -> (FileStore<F>, Answer)
    requires ready { 0 < extending.more → file_ready store ≡ true }
    requires sound { 0 < extending.more → F.sound (file_of store) ≡ true }
    ensures extends { IsTrue F.tells_bytes → (out : List ℕ) × Puts (W.put sink.old) (W.put sink.new) out
        × ExtendsInto (F.bytes (file_of store)) LIMIT extending.entry.more result.1 out }
    ensures bytes { IsTrue F.tells_bytes → result.1 ≡ Answer.Passed
        → ∥ IsFilled (F.bytes (file_of store)) LIMIT extending.entry.more (F.bytes (file_of result.0)) ∥₁ }
    ensures fails { Fails W.Sink sink.old sink.new result.1 (file_failures store) (file_failures result.0) }
{
    extended(alloc, store, extending, sink)
}

/// Converts a store's file into a new file, with the program's limit.
pub fn converted<S: Store + Drop, T: Target, W: Sink, P: Progress>(
    alloc: Global,
    store: S,
    converting: Converting<'_>,
    target: &mut T,
    sink: &mut W,
    progress: &mut P,
) -> (S, Answer)
    ensures named { IsTrue S.tells_bytes → IsTrue T.tells_bytes → Names T.Target target.old target.new
        (IsConverted S.tells_bytes (S.bytes store) LIMIT converting.entry.version)
        (IsRefused (S.bytes store) LIMIT converting.entry.version)
        (Rose (S.failures store) (S.failures result.0)) (Rose (W.failures sink.old) (W.failures sink.new)) result.1 }
    ensures lasts { Lasts T.Target target.old target.new S.tells_bytes
        (IsRefused (S.bytes store) LIMIT converting.entry.version)
        (Rose (S.failures store) (S.failures result.0)) result.1 }
    ensures stops { IsTrue S.tells_bytes → IsTrue T.tells_bytes → Stops T.Target target.old target.new
        (IsConverted S.tells_bytes (S.bytes store) LIMIT converting.entry.version) }
    ensures leaves { Leaves T.Target target.old target.new (Rose (W.failures sink.old) (W.failures sink.new)) result.1 }
    ensures occupied { IsSome (T.named target.old) → (result.1 ≢ Answer.Passed)
        × Rests T.named T.names T.moment T.names_since T.entries T.makes target.old target.new }
    ensures unmade { result.1 ≡ Answer.Refused → target.new ≡ target.old }
    ensures unmade_where_refused { IsTrue S.tells_bytes → IsRefused (S.bytes store) LIMIT converting.entry.version
        → target.new ≡ target.old }
    ensures convertible { IsTrue S.tells_bytes → result.1 ≡ Answer.Passed → (s : Schema) × (p : Placed)
        × Opens (S.bytes store) LIMIT s p × IsConvertible converting.entry.version s (records_of_file p) }
    ensures prints { Prints W.Sink sink.old sink.new S.tells_bytes (S.bytes store)
        LIMIT converting.entry.version result.1 }
    ensures calls { IsTrue S.tells_bytes → (checked : ℕ) → ChecksBy (S.bytes store) LIMIT checked
        → ChecksAndCopies S.Store store result.0 LIMIT converting.entry.version (IsSome (T.named target.old)) checked }
    ensures reach { IsTrue S.tells_bytes
        → S.reach result.0 ≤ max (S.reach store) (max LIMIT (length (S.bytes store))) }
    ensures rests { StoreRests S.Store store result.0
        (FailsAny (T.failures target.old) (T.failures target.new) W.Sink sink.old sink.new result.1) }
{
    convert_store(
        alloc,
        store,
        LIMIT,
        converting.version,
        target,
        sink,
        progress,
    )
}
