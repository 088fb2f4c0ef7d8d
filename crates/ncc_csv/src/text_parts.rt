//! Sending the rows of texts, part by part from the file.

ghost use Rattle.std.specs.Prelude.{◌≡◌, ℕ, ◌+◌, ◌^◌, ◌<◌, ◌≤◌, true, [], ◌++◌, length, take, drop, map, IsTrue, IsOk, IfOk, OnOk};
ghost use Rattle.ncc_values.specs.XType.{size_of};
ghost use Rattle.ncc_values.specs.Values.{type_of, count_of};
ghost use Rattle.ncc_values.specs.declared.xtype.XType.TheVariants as types;
ghost use Rattle.ncc_layout.specs.Elements.{var_at};
ghost use Rattle.ncc_layout.specs.Placed.{file_length_of, record_size_of_file, vars_of};
ghost use Rattle.ncc_layout.specs.Sizes.{product};
ghost use Rattle.ncc_layout.specs.declared.placed_var.PlacedVar.{PlacedVar};
ghost use Rattle.ncc_check.specs.Files.{ReadsFile, store_of, placed_of};
ghost use Rattle.ncc_lines.specs.Sends.{Blames, SendsAll};
ghost use Rattle.ncc_slab.specs.Answers.{TakesPart};
ghost use Rattle.ncc_slab.specs.Selected.{numbers_of, places_of};
ghost use Rattle.ncc_slab.specs.Selection.{selected_count};
ghost use Rattle.ncc_slab.specs.Stretches.{part_stretches, all_stretches};
ghost use Rattle.ncc_slab.specs.SlabParts.{BeginsParts, parts_left, parts_length, parts_type};
ghost use Rattle.ncc_csv.specs.Rows.{HasIndices};
ghost use Rattle.ncc_csv.specs.Sheets.{BlamesEither};
ghost use Rattle.ncc_csv.specs.Texts.{but_last, last_number, byte_of, texts_text};
ghost use Rattle.ncc_csv.specs.TextRuns.{done_in, part_bytes, SendsFull, SendsTexts};

use crate::empty_texts::send_empty_texts;
use crate::gathered::Gathered;
use crate::gathering::send_chars;
use crate::heads::count_along;
use crate::parts::next_values;
use ncc_check::NcFile;
use ncc_header::{Sink, Values};
use ncc_lines::{Progress, SendError};
use ncc_slab::{Slab, SlabParts, laws as slab_laws};
use ncc_store::{Store, laws as store_laws};
use std::alloc::Global;

/// Sends the rows of the texts that these chars make whole.
fn send_values<W: Sink>(
    alloc: Global,
    slab: &Slab,
    gathered: &mut Gathered,
    values: &Values,
    sink: &mut W,
) -> Result<(), SendError>
    requires typed { type_of values.now ≡ types.Char }
    requires fits { HasIndices slab.now }
    requires short { length gathered.old.text.items < last_number slab.now.count }
    requires there { done_in slab.now gathered.old + count_of values.now ≤ selected_count slab.now }
    requires counted { selected_count slab.now < 2 ^ 64 }
    ensures sent { SendsFull slab.now gathered.old.number
        (gathered.old.text.items ++ map byte_of (numbers_of values.now)) gathered.new
        (W.put sink.old) (W.put sink.new) result }
    ensures count { Blames (W.failures sink.old) (W.failures sink.new) result }
{
    match values {
        Values::Chars(items) => send_chars(alloc, slab, gathered, items.as_slice(), sink),
        Values::Bytes(_) => unreachable!(),
        Values::Shorts(_) => unreachable!(),
        Values::Ints(_) => unreachable!(),
        Values::Floats(_) => unreachable!(),
        Values::Doubles(_) => unreachable!(),
        Values::UBytes(_) => unreachable!(),
        Values::UShorts(_) => unreachable!(),
        Values::UInts(_) => unreachable!(),
        Values::Int64s(_) => unreachable!(),
        Values::UInt64s(_) => unreachable!(),
    }
}

/// Sends the rows of the texts that the next part makes whole, and tells how many elements it has, 0 only where none
/// are left. After an `Err` a front of those that are left is sent.
fn send_next_texts<S: Store, W: Sink>(
    alloc: Global,
    file: &mut NcFile<S>,
    slab: &Slab,
    parts: &mut SlabParts,
    gathered: &mut Gathered,
    sink: &mut W,
) -> Result<u64, SendError>
    requires long { parts_length parts.old ≤ file_length_of (placed_of file.old) }
    requires typed { parts_type parts.old ≡ types.Char }
    requires fits { HasIndices slab.now }
    requires short { length gathered.old.text.items < last_number slab.now.count }
    requires there { done_in slab.now gathered.old + length (parts_left parts.old) ≡ selected_count slab.now }
    requires counted { selected_count slab.now < 2 ^ 64 }
    ensures took { IfOk result (TakesPart (size_of (parts_type parts.old))
        (parts_left parts.old) (parts_left parts.new)) }
    ensures some { IfOk result (λ n. 0 < length (parts_left parts.old) → 0 < n) }
    ensures short { OnOk result (length gathered.new.text.items < last_number slab.now.count) }
    ensures done { IfOk result (λ n. done_in slab.now gathered.new ≡ done_in slab.now gathered.old + n) }
    ensures sent { IsTrue S.tells_bytes → (record_size : ℕ) (x : PlacedVar) → parts_type parts.old ≡ x.xtype
        → parts_left parts.old ≡ drop (done_in slab.now gathered.old) (places_of record_size x slab.now)
        → SendsTexts slab.now gathered.old gathered.new
        (part_bytes (S.bytes (store_of file.old)) record_size x slab.now (done_in slab.now gathered.old))
        (length (parts_left parts.old)) (W.put sink.old) (W.put sink.new) result }
    ensures type_is { parts_type parts.new ≡ parts_type parts.old }
    ensures long { parts_length parts.new ≡ parts_length parts.old }
    ensures file { ReadsFile file.old file.new
        (λ a b. BlamesEither a b (W.failures sink.old) (W.failures sink.new) result) true
        (part_stretches (size_of (parts_type parts.old)) (parts_left parts.old))
        (file_length_of (placed_of file.old)) }
{
    slab_laws::part_has_numbers();
    slab_laws::no_part_is_the_end();
    let values = next_values(alloc, file, parts)?;
    let sent = send_values(alloc, slab, gathered, &values, sink);
    let count = values.len() as u64;
    drop(values);
    match sent {
        Ok(()) => Ok(count),
        Err(send_error) => Err(send_error),
    }
}

/// Sends the rows of texts of at least one character each.
fn send_some_texts<S: Store, W: Sink, P: Progress>(
    alloc: Global,
    file: &mut NcFile<S>,
    slab: &Slab,
    parts: &mut SlabParts,
    sink: &mut W,
    progress: &mut P,
) -> Result<(), SendError>
    requires begins { (number : ℕ) × BeginsParts (placed_of file.old) number slab.now parts.old }
    requires typed { parts_type parts.old ≡ types.Char }
    requires fits { HasIndices slab.now }
    requires some { 0 < last_number slab.now.count }
    ensures sent { IsTrue S.tells_bytes → (number : ℕ) → BeginsParts (placed_of file.old) number slab.now parts.old
        → SendsAll (W.put sink.old) (W.put sink.new) (texts_text (S.bytes (store_of file.old))
        (record_size_of_file (placed_of file.old)) (var_at (vars_of (placed_of file.old)) number) slab.now) result }
    ensures none { parts_left parts.old ≡ [] → IsOk result }
    ensures file { ReadsFile file.old file.new
        (λ a b. BlamesEither a b (W.failures sink.old) (W.failures sink.new) result) true
        (all_stretches (size_of (parts_type parts.old)) (parts_left parts.old))
        (file_length_of (placed_of file.old)) }
{
    store_laws::unmoved_calls_join::<S>();
    slab_laws::places_are_counted();
    let mut gathered = Gathered {
        number: 0,
        text: Vec::new(alloc),
    };
    let all = parts.left();
    let mut done = 0;
    while done < all {
        done += send_next_texts(alloc, file, slab, parts, &mut gathered, sink)?;
        progress.rows(done, all);
    }
    Ok(())
}

/// Sends the rows of a selection of texts, part by part, and tells after each how many of all characters are done.
/// After an `Err` a front of them is sent.
pub fn send_texts<S: Store, W: Sink, P: Progress>(
    alloc: Global,
    file: &mut NcFile<S>,
    slab: &Slab,
    parts: &mut SlabParts,
    sink: &mut W,
    progress: &mut P,
) -> Result<(), SendError>
    requires begins { (number : ℕ) × BeginsParts (placed_of file.old) number slab.now parts.old }
    requires typed { parts_type parts.old ≡ types.Char }
    requires fits { HasIndices slab.now }
    requires ranked { 0 < length slab.now.count }
    requires counted { product (but_last slab.now.count) < 2 ^ 64 }
    ensures sent { IsTrue S.tells_bytes → (number : ℕ) → BeginsParts (placed_of file.old) number slab.now parts.old
        → SendsAll (W.put sink.old) (W.put sink.new) (texts_text (S.bytes (store_of file.old))
        (record_size_of_file (placed_of file.old)) (var_at (vars_of (placed_of file.old)) number) slab.now) result }
    ensures file { ReadsFile file.old file.new
        (λ a b. BlamesEither a b (W.failures sink.old) (W.failures sink.new) result) true
        (all_stretches (size_of (parts_type parts.old)) (parts_left parts.old))
        (file_length_of (placed_of file.old)) }
{
    if count_along(slab, slab.count.len() - 1) == 0 {
        return send_empty_texts(alloc, slab, sink);
    }
    send_some_texts(alloc, file, slab, parts, sink, progress)
}
