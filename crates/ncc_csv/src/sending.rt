//! Sending the rows of values.

ghost use Rattle.std.specs.Prelude.{◌≡◌, ◌+◌, ◌-◌, ◌^◌, ◌<◌, ◌≤◌, [], length, map, OnOk};
ghost use Rattle.ncc_values.specs.Values.{count_of};
ghost use Rattle.ncc_lines.specs.Sends.{SendsAll, Blames};
ghost use Rattle.ncc_slab.specs.Selection.{selected_count};
ghost use Rattle.ncc_csv.specs.Rows.{part_text, HasIndices};
ghost use Rattle.ncc_csv.specs.Runs.{slab_row, first_rows};

use crate::block::put_rows;
use crate::cell::Cell;
use crate::word::Word;
use ncc_header::{Sink, Values};
use ncc_lines::{FloatStyle, SendError, send_page};
use ncc_slab::Slab;
use std::alloc::Global;

/// How many fields gather in memory before they are sent. Each has at most 25 bytes with what parts it from the
/// next, so that they are below 64 KiB.
const FIELDS: usize = 2_600;

/// Sends the rows of a few values by an empty page.
fn send_block<T: Cell, W: Sink>(
    alloc: Global,
    page: &mut Vec<u8>,
    heads: &mut [Word],
    slab: &Slab,
    first: u64,
    values: &[T],
    style: FloatStyle,
    sink: &mut W,
) -> Result<(), SendError>
    requires empty { page.old.items ≡ [] }
    requires ranked { length heads.old ≡ length slab.now.count - 1 }
    requires fits { HasIndices slab.now }
    requires there { first + length values.now ≤ selected_count slab.now }
    requires counted { selected_count slab.now < 2 ^ 64 }
    ensures empty { OnOk result (page.new.items ≡ []) }
    ensures sent { SendsAll (W.put sink.old) (W.put sink.new)
        (first_rows (slab_row slab.now first (map (T.text style) values.now)) (length values.now)) result }
    ensures count { Blames (W.failures sink.old) (W.failures sink.new) result }
{
    put_rows(alloc, page, heads, slab, first, values, style)?;
    send_page(page, sink)
}

/// Sends the rows of values, block by block, by an empty page.
fn send_blocks<T: Cell, W: Sink>(
    alloc: Global,
    page: &mut Vec<u8>,
    heads: &mut [Word],
    slab: &Slab,
    first: u64,
    values: &[T],
    style: FloatStyle,
    sink: &mut W,
) -> Result<(), SendError>
    requires empty { page.old.items ≡ [] }
    requires ranked { length heads.old ≡ length slab.now.count - 1 }
    requires fits { HasIndices slab.now }
    requires there { first + length values.now ≤ selected_count slab.now }
    requires counted { selected_count slab.now < 2 ^ 64 }
    ensures sent { SendsAll (W.put sink.old) (W.put sink.new)
        (first_rows (slab_row slab.now first (map (T.text style) values.now)) (length values.now)) result }
    ensures count { Blames (W.failures sink.old) (W.failures sink.new) result }
{
    let most = (FIELDS / heads.len().saturating_add(2)).max(1);
    let mut done = 0;
    while done < values.len() {
        let rest = values.split_at(done).1;
        let piece = rest.split_at(rest.len().min(most)).0;
        send_block(
            alloc,
            page,
            heads,
            slab,
            first + done as u64,
            piece,
            style,
            sink,
        )?;
        done += piece.len();
    }
    Ok(())
}

/// Sends the rows of values.
fn send_values<T: Cell, W: Sink>(
    alloc: Global,
    slab: &Slab,
    first: u64,
    values: &[T],
    style: FloatStyle,
    sink: &mut W,
) -> Result<(), SendError>
    requires fits { HasIndices slab.now }
    requires there { first + length values.now ≤ selected_count slab.now }
    requires counted { selected_count slab.now < 2 ^ 64 }
    ensures sent { SendsAll (W.put sink.old) (W.put sink.new)
        (first_rows (slab_row slab.now first (map (T.text style) values.now)) (length values.now)) result }
    ensures count { Blames (W.failures sink.old) (W.failures sink.new) result }
{
    let mut page = Vec::new(alloc);
    let mut heads = vec![in alloc; Word::unsigned(0); slab.count.len().saturating_sub(1)]?;
    send_blocks(
        alloc,
        &mut page,
        heads.as_mut_slice(),
        slab,
        first,
        values,
        style,
        sink,
    )
}

/// Sends the rows of values of a selection, of which the first is the element with this number in row-major
/// order, through a buffer below 64 KiB, or of one row where that is longer. After an `Err` a front of them is sent.
pub fn send_part<W: Sink>(
    alloc: Global,
    slab: &Slab,
    first: u64,
    values: &Values,
    style: FloatStyle,
    sink: &mut W,
) -> Result<(), SendError>
    requires fits { HasIndices slab.now }
    requires there { first + count_of values.now ≤ selected_count slab.now }
    requires counted { selected_count slab.now < 2 ^ 64 }
    ensures sent { SendsAll (W.put sink.old) (W.put sink.new) (part_text style slab.now first values.now) result }
    ensures count { Blames (W.failures sink.old) (W.failures sink.new) result }
{
    match values {
        Values::Bytes(items) => send_values(alloc, slab, first, items.as_slice(), style, sink),
        Values::Chars(items) => send_values(alloc, slab, first, items.as_slice(), style, sink),
        Values::Shorts(items) => send_values(alloc, slab, first, items.as_slice(), style, sink),
        Values::Ints(items) => send_values(alloc, slab, first, items.as_slice(), style, sink),
        Values::Floats(items) => send_values(alloc, slab, first, items.as_slice(), style, sink),
        Values::Doubles(items) => send_values(alloc, slab, first, items.as_slice(), style, sink),
        Values::UBytes(items) => send_values(alloc, slab, first, items.as_slice(), style, sink),
        Values::UShorts(items) => send_values(alloc, slab, first, items.as_slice(), style, sink),
        Values::UInts(items) => send_values(alloc, slab, first, items.as_slice(), style, sink),
        Values::Int64s(items) => send_values(alloc, slab, first, items.as_slice(), style, sink),
        Values::UInt64s(items) => send_values(alloc, slab, first, items.as_slice(), style, sink),
    }
}
