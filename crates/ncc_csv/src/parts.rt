//! Sending the rows of a selection, part by part from the file.

ghost use Rattle.std.specs.Prelude.{◌≡◌, ℕ, ◌+◌, ◌^◌, ◌<◌, ◌≤◌, [], true, length, take, drop, IsTrue, IsOk, IfOk};
ghost use Rattle.ncc_values.specs.XType.{size_of};
ghost use Rattle.ncc_values.specs.Values.{type_of, count_of, no_values};
ghost use Rattle.ncc_layout.specs.Elements.{var_at};
ghost use Rattle.ncc_layout.specs.Placed.{file_length_of, record_size_of_file, vars_of};
ghost use Rattle.ncc_check.specs.Files.{ReadsFile, store_of, placed_of};
ghost use Rattle.ncc_lines.specs.Sends.{SendsAll};
ghost use Rattle.ncc_slab.specs.Answers.{TakesPart};
ghost use Rattle.ncc_slab.specs.Selected.{AddsPlaces, places_of};
ghost use Rattle.ncc_slab.specs.Selection.{indices_of, selected_count};
ghost use Rattle.ncc_slab.specs.Stretches.{part_stretches, all_stretches};
ghost use Rattle.ncc_slab.specs.SlabParts.{BeginsParts, parts_left, parts_length, parts_type};
ghost use Rattle.ncc_layout.specs.declared.placed_var.PlacedVar.{PlacedVar};
ghost use Rattle.ncc_csv.specs.Csv.{rows_text};
ghost use Rattle.ncc_csv.specs.Rows.{HasIndices};
ghost use Rattle.ncc_csv.specs.Sheets.{BlamesOne, BlamesEither, part_rows, SendsNext};

use crate::sending::send_part;
use ncc_check::NcFile;
use ncc_header::{Sink, Values};
use ncc_lines::{FloatStyle, Progress, SendError};
use ncc_slab::{Slab, SlabFault, SlabParts, laws as slab_laws};
use ncc_store::{Store, laws as store_laws};
use std::alloc::Global;

/// The values of the next part, in memory of their own.
pub fn next_values<S: Store>(
    alloc: Global,
    file: &mut NcFile<S>,
    parts: &mut SlabParts,
) -> Result<Values, SendError>
    requires { parts_length parts.old ≤ file_length_of (placed_of file.old) }
    ensures took { IfOk result (λ v. TakesPart (size_of (parts_type parts.old))
        (parts_left parts.old) (parts_left parts.new) (count_of v)) }
    ensures values { IsTrue S.tells_bytes → IfOk result (λ v. AddsPlaces (S.bytes (store_of file.old))
        (size_of (parts_type parts.old)) (take (count_of v) (parts_left parts.old))
        (no_values (parts_type parts.old)) v) }
    ensures typed { IfOk result (λ v. type_of v ≡ parts_type parts.old) }
    ensures type_is { parts_type parts.new ≡ parts_type parts.old }
    ensures long { parts_length parts.new ≡ parts_length parts.old }
    ensures file { ReadsFile file.old file.new (λ a b. BlamesOne a b result) true
        (part_stretches (size_of (parts_type parts.old)) (parts_left parts.old))
        (file_length_of (placed_of file.old)) }
{
    let mut values = Values::new(alloc, parts.xtype());
    match parts.next_part(file, &mut values) {
        Ok(_) => Ok(values),
        Err(SlabFault::Device) => Err(SendError::Device),
        Err(SlabFault::Memory) => Err(SendError::Memory),
        Err(SlabFault::NoVariable) => unreachable!(),
        Err(SlabFault::RankMismatch) => unreachable!(),
        Err(SlabFault::ZeroStride(_)) => unreachable!(),
        Err(SlabFault::Outside(_)) => unreachable!(),
    }
}

/// Sends the rows of the next part, of which the first is the element with this number in row-major order, and
/// tells how many there are, 0 only where none are left. After an `Err` a front of those that are left is sent.
fn send_next<S: Store, W: Sink>(
    alloc: Global,
    file: &mut NcFile<S>,
    slab: &Slab,
    parts: &mut SlabParts,
    first: u64,
    style: FloatStyle,
    sink: &mut W,
) -> Result<u64, SendError>
    requires long { parts_length parts.old ≤ file_length_of (placed_of file.old) }
    requires fits { HasIndices slab.now }
    requires there { first + length (parts_left parts.old) ≡ selected_count slab.now }
    requires counted { selected_count slab.now < 2 ^ 64 }
    ensures took { IfOk result (TakesPart (size_of (parts_type parts.old))
        (parts_left parts.old) (parts_left parts.new)) }
    ensures some { IfOk result (λ n. 0 < length (parts_left parts.old) → 0 < n) }
    ensures sent { IsTrue S.tells_bytes → (record_size : ℕ) (x : PlacedVar) → parts_type parts.old ≡ x.xtype
        → parts_left parts.old ≡ drop first (places_of record_size x slab.now)
        → SendsNext (part_rows style (S.bytes (store_of file.old)) record_size x slab.now first)
        (length (parts_left parts.old)) (W.put sink.old) (W.put sink.new) result }
    ensures type_is { parts_type parts.new ≡ parts_type parts.old }
    ensures long { parts_length parts.new ≡ parts_length parts.old }
    ensures file { ReadsFile file.old file.new
        (λ a b. BlamesEither a b (W.failures sink.old) (W.failures sink.new) result) true
        (part_stretches (size_of (parts_type parts.old)) (parts_left parts.old))
        (file_length_of (placed_of file.old)) }
{
    slab_laws::part_has_numbers();
    slab_laws::no_part_is_the_end();
    let values = next_values(alloc, file, parts)?;
    let sent = send_part(alloc, slab, first, &values, style, sink);
    let count = values.len() as u64;
    drop(values);
    match sent {
        Ok(()) => Ok(count),
        Err(send_error) => Err(send_error),
    }
}

/// Sends the rows of a selection, part by part, and tells after each how many of all are done. After an `Err` a
/// front of them is sent.
pub fn send_rows<S: Store, W: Sink, P: Progress>(
    alloc: Global,
    file: &mut NcFile<S>,
    slab: &Slab,
    parts: &mut SlabParts,
    style: FloatStyle,
    sink: &mut W,
    progress: &mut P,
) -> Result<(), SendError>
    requires begins { (number : ℕ) × BeginsParts (placed_of file.old) number slab.now parts.old }
    requires fits { HasIndices slab.now }
    ensures sent { IsTrue S.tells_bytes → (number : ℕ) → BeginsParts (placed_of file.old) number slab.now parts.old
        → SendsAll (W.put sink.old) (W.put sink.new) (rows_text style (S.bytes (store_of file.old))
        (record_size_of_file (placed_of file.old)) (var_at (vars_of (placed_of file.old)) number)
        (indices_of slab.now)) result }
    ensures none { parts_left parts.old ≡ [] → IsOk result }
    ensures file { ReadsFile file.old file.new
        (λ a b. BlamesEither a b (W.failures sink.old) (W.failures sink.new) result) true
        (all_stretches (size_of (parts_type parts.old)) (parts_left parts.old))
        (file_length_of (placed_of file.old)) }
{
    store_laws::unmoved_calls_join::<S>();
    slab_laws::places_are_counted();
    let all = parts.left();
    let mut done = 0;
    while done < all {
        done += send_next(alloc, file, slab, parts, done, style, sink)?;
        progress.rows(done, all);
    }
    Ok(())
}
