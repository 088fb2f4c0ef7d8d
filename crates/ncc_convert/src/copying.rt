//! Copies the slabs of an open file to a writer.

ghost use Rattle.std.specs.Prelude.{◌≡◌, ◌⊎◌, ◌+◌, ◌<◌, ◌≤◌, ℕ, List, Option, None, length, true, IsOk, OnOk, OnErr};
ghost use Rattle.ncc_values.specs.Failures.{Rose};
ghost use Rattle.ncc_layout.specs.Placed.{file_length_of};
ghost use Rattle.ncc_check.specs.Files.{ReadsFile, store_of, schema_of, placed_of};
ghost use Rattle.ncc_write.specs.Writer.{schema_in, sink_in, taken_in, Stands};
ghost use Rattle.ncc_write.specs.Writing.{data_length, expected, WriterState};
ghost use Rattle.ncc_convert.specs.Copying.{Copies, CopyCounts, Expects, HasFront, pieces_left};
ghost use Rattle.ncc_write.specs.Planned.{IsPlanned};

use ncc_check::NcFile;
use ncc_check::laws::{open_file_is_long, open_file_stands};
use ncc_lines::Progress;
use ncc_schema::{Device, Sink};
use ncc_slab::slab_place;
use ncc_store::{Store, laws as store_laws};
use ncc_write::FileWriter;
use ncc_write::laws::{complete_when_taken, out_is_in_files};

/// Copies a piece of the slab that comes next: from its next element on, as much as the buffer has room for. One call of
/// the store.
fn copy_piece<S: Store, W: Sink, P: Progress>(
    file: &mut NcFile<S>,
    writer: &mut FileWriter<W>,
    buffer: &mut [u8],
    var: usize,
    number: u64,
    left: u64,
    progress: &mut P,
) -> Result<(), Device>
    requires room { length buffer.old ≡ 65536 }
    requires planned { IsPlanned (schema_of file.old) (placed_of file.old) (schema_in writer.old) }
    requires copies { (start : Option (List ℕ)) × Copies S.tells_bytes (S.bytes (store_of file.old))
        (placed_of file.old) start (W.put (sink_in writer.old)) writer.old }
    requires next { Expects (W.put (sink_in writer.old)) writer.old var number left }
    ensures copies { (start : Option (List ℕ)) → Copies S.tells_bytes (S.bytes (store_of file.old))
        (placed_of file.old) start (W.put (sink_in writer.old)) writer.old
        → OnOk result (Copies S.tells_bytes (S.bytes (store_of file.old)) (placed_of file.old)
        start (W.put (sink_in writer.new)) writer.new) }
    ensures stops { (start : Option (List ℕ)) → Copies S.tells_bytes (S.bytes (store_of file.old))
        (placed_of file.old) start (W.put (sink_in writer.old)) writer.old
        → OnErr result (HasFront S.tells_bytes (S.bytes (store_of file.old)) (placed_of file.old)
        (schema_in writer.old) start (W.put (sink_in writer.new))) }
    ensures before { taken_in writer.old < data_length (schema_in writer.old) }
    ensures more { OnOk result (taken_in writer.old < taken_in writer.new) }
    ensures some { 1 ≤ pieces_left writer.old }
    ensures fewer { OnOk result (pieces_left writer.new + 1 ≤ pieces_left writer.old) }
    ensures planned { schema_in writer.new ≡ schema_in writer.old }
    ensures room { length buffer.new ≡ length buffer.old }
    ensures file { ReadsFile file.old file.new
        (λ a b. CopyCounts a b (W.failures (sink_in writer.old)) (W.failures (sink_in writer.new)) result) true
        1 (file_length_of (placed_of file.old)) }
{
    open_file_stands(file);
    open_file_is_long(file);
    complete_when_taken();
    out_is_in_files();
    let placed = file.placed();
    let place = match slab_place(placed, var, number) {
        Some(place) => place,
        None => unreachable!(),
    };
    let xtype = placed.xtype(var);
    let size = xtype.size();
    let from = place + placed.slab(var) - left * size as u64;
    let all = placed.file_length();
    let count = left.min((buffer.len() / size) as u64) as usize;
    let piece = &mut buffer[..count * size];
    match file.fetch(from, piece) {
        Ok(()) => progress.bytes(piece.len() as u64, all),
        Err(_) => return Err(Device),
    }
    match writer.put_bytes(xtype, piece) {
        Ok(()) => Ok(()),
        Err(_) => Err(Device),
    }
}

/// Copies all slabs that the writer expects.
pub(crate) fn copy_all<S: Store, W: Sink, P: Progress>(
    file: &mut NcFile<S>,
    writer: &mut FileWriter<W>,
    buffer: &mut [u8],
    progress: &mut P,
) -> Result<(), Device>
    requires room { length buffer.old ≡ 65536 }
    requires planned { IsPlanned (schema_of file.old) (placed_of file.old) (schema_in writer.old) }
    requires copies { (start : Option (List ℕ)) × Copies S.tells_bytes (S.bytes (store_of file.old))
        (placed_of file.old) start (W.put (sink_in writer.old)) writer.old }
    ensures copies { (start : Option (List ℕ)) → Copies S.tells_bytes (S.bytes (store_of file.old))
        (placed_of file.old) start (W.put (sink_in writer.old)) writer.old
        → OnOk result (Copies S.tells_bytes (S.bytes (store_of file.old)) (placed_of file.old)
        start (W.put (sink_in writer.new)) writer.new) }
    ensures stops { (start : Option (List ℕ)) → Copies S.tells_bytes (S.bytes (store_of file.old))
        (placed_of file.old) start (W.put (sink_in writer.old)) writer.old
        → OnErr result (HasFront S.tells_bytes (S.bytes (store_of file.old)) (placed_of file.old)
        (schema_in writer.old) start (W.put (sink_in writer.new))) }
    ensures all { OnOk result ((start : Option (List ℕ)) (w : WriterState)
        → Stands start (W.put (sink_in writer.new)) writer.new w → None ≡ expected w) }
    ensures planned { schema_in writer.new ≡ schema_in writer.old }
    ensures file { ReadsFile file.old file.new
        (λ a b. CopyCounts a b (W.failures (sink_in writer.old)) (W.failures (sink_in writer.new)) result) true
        (pieces_left writer.old) (file_length_of (placed_of file.old)) }
{
    store_laws::unmoved_calls_join::<S>();
    while let Some((var, number, left)) = writer.expects() {
        copy_piece(file, writer, buffer, var, number, left, progress)?;
    }
    Ok(())
}
