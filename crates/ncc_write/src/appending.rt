//! Adds a record to an open file.

ghost use Rattle.std.specs.Prelude.{◌≡◌, IfErr, IfOk, OnOk};
ghost use Rattle.ncc_check.specs.Files.{schema_of, placed_of, must_reopen};
ghost use Rattle.ncc_check.specs.Writes.{AddsRecord, CallsForRecord};
ghost use Rattle.ncc_write.specs.Appends.{AppendsAs, RefusesImage};
ghost use Rattle.ncc_write.specs.Records.{HasSizes, IsRecord, bytes_of_record};

use crate::image::{image_of, judge_slabs};
use crate::laws::open_file_has_sizes;
use ncc_check::{AppendError, NcFile};
use ncc_layout::Placed;
use ncc_schema::Schema;
use ncc_store::Store;
use ncc_values::Values;
use std::alloc::{AllocError, Global};

/// The bytes of a record of these slabs, if they are those of one.
fn record_image(
    alloc: Global,
    schema: &Schema,
    placed: &Placed,
    slabs: &[Values],
) -> Result<Vec<u8>, AppendError>
    requires sizes { HasSizes schema.now placed.now }
    ensures fits { OnOk result (IsRecord schema.now slabs.now) }
    ensures bytes { IfOk result (λ image. image.items ≡ bytes_of_record schema.now slabs.now) }
    ensures refused { IfErr result (RefusesImage schema.now slabs.now) }
{
    if let Err(number) = judge_slabs(schema, placed, slabs) {
        return Err(AppendError::WrongValues(number));
    }
    match image_of(alloc, schema, placed, slabs) {
        Ok(image) => Ok(image),
        Err(AllocError) => Err(AppendError::Memory),
    }
}

/// Adds a record: a slab of values for each record variable, in header order, row-major. It is refused as Reopen,
/// NoRecordVariable, NotPacked, Streaming, CountFull, WrongValues, Memory in this order, and file and object are then as
/// before. The record and what is missing of the padding before it go out with a sync, and then the number of records
/// with another. After a failure of the device, and after a stop at any moment, the old records stand or the new one
/// too; then it answers Reopen for good, and reads go on as before.
pub fn append<S: Store>(
    alloc: Global,
    file: &mut NcFile<S>,
    slabs: &[Values],
) -> Result<(), AppendError>
    ensures answer { AppendsAs (must_reopen file.old) (schema_of file.old) (placed_of file.old) slabs.now result }
    ensures adds { AddsRecord file.old file.new result (bytes_of_record (schema_of file.old) slabs.now) }
    ensures calls { CallsForRecord file.old file.new result }
{
    open_file_has_sizes(file);
    file.appendable()?;
    let image = record_image(alloc, file.schema(), file.placed(), slabs)?;
    file.append_image(image.as_slice())
}
