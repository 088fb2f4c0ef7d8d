//! Writes the dataset of an open file in the version of a planned schema.

ghost use Rattle.std.specs.Prelude.{◌≡◌, ◌≤◌, ℕ, Err, length, true, OnOk};
ghost use Rattle.ncc_build.specs.Builds.{schema_of as planned_schema};
ghost use Rattle.ncc_build.specs.Dataset.{slabs_of};
ghost use Rattle.ncc_build.specs.File.{header_of};
ghost use Rattle.ncc_layout.specs.Placed.{file_length_of};
ghost use Rattle.ncc_check.specs.Files.{ReadsFile, store_of, schema_of, placed_of};
ghost use Rattle.ncc_write.specs.Writing.{Went};
ghost use Rattle.ncc_convert.specs.Converting.{ConvertCounts, ConvertsAs, IsSomeFile, ReadsAs, send_error_of};
ghost use Rattle.ncc_convert.specs.Copying.{pieces_of};
ghost use Rattle.ncc_write.specs.Planned.{IsPlanned};

use crate::copying::copy_all;
use ncc_check::NcFile;
use ncc_lines::{Progress, SendError};
use ncc_schema::Sink;
use ncc_store::Store;
use ncc_write::laws::{complete_when_taken, dataset_told};
use ncc_write::{Built, FileWriter, WriteFault, headline};
use std::alloc::Global;

/// How many bytes are read at once.
const BUFFER: usize = 65_536;

/// Why a writer didn't start.
fn send_error_of(fault: WriteFault) -> SendError
    ensures { result ≡ send_error_of fault }
{
    match fault {
        WriteFault::Memory => SendError::Memory,
        _ => SendError::Device,
    }
}

/// Writes the file of what an open file holds, by a schema that says the same, in the schema's version. The slabs are
/// read as the writer expects them, each in pieces of 65,536 bytes, and go out by their bytes. After an `Err`
/// a beginning of the file went out, after `Memory` nothing; all memory is taken before. The sink comes back.
pub fn convert<S: Store, W: Sink + Drop, P: Progress>(
    alloc: Global,
    file: &mut NcFile<S>,
    built: Built,
    sink: W,
    progress: &mut P,
) -> (W, Result<(), SendError>)
    requires planned { IsPlanned (schema_of file.old) (placed_of file.old) (planned_schema built) }
    ensures converts { ConvertsAs S.tells_bytes (S.bytes (store_of file.old)) (placed_of file.old)
        (planned_schema built) (W.put sink) (W.put result.0) result.1 }
    ensures whole { OnOk result.1
        (Went (W.put sink) (W.put result.0) (λ out. ∥ IsSomeFile (planned_schema built) out ∥₁)) }
    ensures reads { OnOk result.1 ((limit : ℕ) → length (header_of (planned_schema built)) ≤ limit
        → Went (W.put sink) (W.put result.0) (ReadsAs S.tells_bytes (S.bytes (store_of file.old))
        (placed_of file.old) (planned_schema built) limit)) }
    ensures memory { result.1 ≡ Err SendError.Memory → (result.0 ≡ sink) × (file.new ≡ file.old) }
    ensures file { ReadsFile file.old file.new
        (λ a b. ConvertCounts a b (W.failures sink) (W.failures result.0) result.1) true
        (pieces_of (planned_schema built) (slabs_of (planned_schema built))) (file_length_of (placed_of file.old)) }
{
    dataset_told();
    complete_when_taken();
    headline();
    let Ok(mut buffer) = vec![in alloc; 0; BUFFER] else {
        return (sink, Err(SendError::Memory));
    };
    let mut writer = match FileWriter::start(alloc, built, sink) {
        Ok(writer) => writer,
        Err((sink, fault)) => return (sink, Err(send_error_of(fault))),
    };
    match copy_all(file, &mut writer, &mut buffer, progress) {
        Ok(()) => match writer.finish() {
            Ok(sink) => (sink, Ok(())),
            Err(_) => unreachable!(),
        },
        Err(_) => (writer.into_sink(), Err(SendError::Device)),
    }
}
