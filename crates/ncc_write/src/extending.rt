//! Adds records of fill values to an open file.

ghost use Rattle.std.specs.Prelude.{◌≡◌, IsTrue, length};
ghost use Rattle.ncc_layout.specs.Placed.{record_size_of_file};
ghost use Rattle.ncc_check.specs.Files.{schema_of, placed_of, must_reopen};
ghost use Rattle.ncc_check.specs.Writes.{AddsRecord, CallsForRecord};
ghost use Rattle.ncc_write.specs.Extends.{AddsAs, ExtendsAs};
ghost use Rattle.ncc_write.specs.Filled.{CallsForFills, ExtendsFile, FillsAtStop, FillsBytes, SettlesFills};

use crate::filled::fill_image;
use crate::laws::adding::{
    append_holds, fills_are_a_record, followed_twice, opens_with_its_schema, record_is_long,
};
use crate::laws::open_file_has_sizes;
use ncc_check::laws::appending::bytes_with_a_record_pass_on;
use ncc_check::{AppendError, NcFile};
use ncc_store::Store;
use std::alloc::{AllocError, Global};

/// Adds a record of these bytes, if the file takes one.
fn add_one<S: Store>(file: &mut NcFile<S>, image: &[u8]) -> Result<(), AppendError>
    requires image { length image.now ≡ record_size_of_file (placed_of file.old) }
    ensures answer { AddsAs (must_reopen file.old) (schema_of file.old) (placed_of file.old) result }
    ensures adds { AddsRecord file.old file.new result image.now }
    ensures calls { CallsForRecord file.old file.new result }
{
    file.appendable()?;
    file.append_image(image)
}

/// Adds so many records of fill values, one append each, so that those added before an error stand. Before the first
/// of them what may be pending is brought to the disk. With none to add nothing is done. It is refused as `append` is:
/// CountFull as soon as there is no room for the next record.
pub fn extend<S: Store>(alloc: Global, file: &mut NcFile<S>, more: u64) -> Result<(), AppendError>
    ensures answer { ExtendsAs (must_reopen file.old) (schema_of file.old) (placed_of file.old) more result }
    ensures leaves { ExtendsFile file.old file.new more result }
    ensures bytes { IsTrue S.tells_bytes → FillsBytes file.old file.new more result }
    ensures stop { IsTrue S.tells_bytes → FillsAtStop file.old file.new more }
    ensures settles { SettlesFills file.old file.new more result }
    ensures calls { CallsForFills file.old file.new more result }
{
    open_file_has_sizes(file);
    fills_are_a_record();
    record_is_long();
    append_holds();
    opens_with_its_schema();
    followed_twice();
    bytes_with_a_record_pass_on();
    if more == 0 {
        return Ok(());
    }
    file.appendable()?;
    let image = match fill_image(alloc, file) {
        Ok(image) => image,
        Err(AllocError) => return Err(AppendError::Memory),
    };
    file.settle()?;
    for _done in 0..more {
        add_one(file, image.as_slice())?;
    }
    Ok(())
}
