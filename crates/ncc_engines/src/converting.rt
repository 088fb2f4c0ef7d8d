//! `convert`: what a file holds, in another version.

ghost use Rattle.std.specs.Prelude.{◌≡◌, ◌≤◌, ℕ, true, length};
ghost use Rattle.ncc_build.specs.Builds.{schema_of as planned_schema};
ghost use Rattle.ncc_build.specs.Dataset.{slabs_of};
ghost use Rattle.ncc_build.specs.File.{header_of};
ghost use Rattle.ncc_layout.specs.Placed.{file_length_of};
ghost use Rattle.ncc_check.specs.Files.{ReadsFile, store_of, schema_of, placed_of};
ghost use Rattle.ncc_write.specs.Writing.{Went};
ghost use Rattle.ncc_convert.specs.Converting.{IsSomeFile, ReadsAs};
ghost use Rattle.ncc_convert.specs.Copying.{pieces_of};
ghost use Rattle.ncc_write.specs.Planned.{IsPlanned};
ghost use Rattle.ncc_engines.specs.Converting.{ConversionCounts, ConvertsInto};

use ncc_answers::{Answer, answer_of_sent};
use ncc_check::NcFile;
use ncc_convert::convert;
use ncc_header::Sink;
use ncc_lines::Progress;
use ncc_store::Store;
use ncc_write::Built;
use std::alloc::Global;

/// Writes the file of what an open file holds, by a schema that was planned for it, and prints nothing. After a failure
/// a beginning of that file went out, and after want of memory nothing, since all memory is taken before.
pub fn convert_engine<S: Store, W: Sink + Drop, P: Progress>(
    alloc: Global,
    file: &mut NcFile<S>,
    built: Built,
    sink: W,
    progress: &mut P,
) -> (W, Answer)
    requires planned { IsPlanned (schema_of file.old) (placed_of file.old) (planned_schema built) }
    ensures converts { ConvertsInto S.tells_bytes (S.bytes (store_of file.old)) (placed_of file.old)
        (planned_schema built) (W.put sink) (W.put result.0) result.1 }
    ensures whole { result.1 ≡ Answer.Passed
        → Went (W.put sink) (W.put result.0) (λ out. ∥ IsSomeFile (planned_schema built) out ∥₁) }
    ensures reads { result.1 ≡ Answer.Passed → (limit : ℕ) → length (header_of (planned_schema built)) ≤ limit
        → Went (W.put sink) (W.put result.0) (ReadsAs S.tells_bytes (S.bytes (store_of file.old))
        (placed_of file.old) (planned_schema built) limit) }
    ensures memory { result.1 ≡ Answer.Memory → (result.0 ≡ sink) × (file.new ≡ file.old) }
    ensures file { ReadsFile file.old file.new
        (λ a b. ConversionCounts a b (W.failures sink) (W.failures result.0) result.1) true
        (pieces_of (planned_schema built) (slabs_of (planned_schema built)))
        (file_length_of (placed_of file.old)) }
{
    let (sink, done) = convert(alloc, file, built, sink, progress);
    (sink, answer_of_sent(done, Answer::Passed))
}
