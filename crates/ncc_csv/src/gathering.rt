//! Gathering the bytes of chars into texts, and sending the rows of those that are whole.

ghost use Rattle.std.specs.Prelude.{◌≡◌, ◌+◌, ◌*◌, ◌^◌, ◌<◌, ◌≤◌, [], ◌∷◌, ◌++◌, length, OnOk};
ghost use Rattle.ncc_lines.specs.Sends.{Blames};
ghost use Rattle.ncc_slab.specs.Selection.{selected_count};
ghost use Rattle.ncc_csv.specs.Rows.{IsBetween, Adds, HasIndices};
ghost use Rattle.ncc_csv.specs.Texts.{last_number};
ghost use Rattle.ncc_csv.specs.TextRuns.{bytes_of, done_in, Gathers, SendsFull};

use crate::gathered::Gathered;
use crate::heads::count_along;
use crate::text_row::put_numbered_row;
use crate::word::Word;
use csv::Writer;
use ncc_header::Sink;
use ncc_lines::{SendError, send_page};
use ncc_slab::Slab;
use ncc_values::Char;
use std::alloc::{AllocError, Global};
use std::io::Write;
use std::mem;

/// How many fields of whole rows gather in memory before they are sent.
const FIELDS: u64 = 2_600;

/// How many characters gather at most.
const CHARS: u64 = 16_000;

/// Adds a byte to its text, and the row of the text where it is whole.
fn put_char<W: Write + Drop>(
    w: &mut Writer<W>,
    heads: &mut [Word],
    slab: &Slab,
    gathered: &mut Gathered,
    shown: &mut Vec<u8>,
    byte: u8,
) -> Result<(), AllocError>
    requires between { IsBetween w.old }
    requires ranked { length slab.now.count ≡ length heads.old + 1 }
    requires fits { HasIndices slab.now }
    requires short { length gathered.old.text.items < last_number slab.now.count }
    requires there { done_in slab.now gathered.old < selected_count slab.now }
    requires counted { selected_count slab.now < 2 ^ 64 }
    ensures { OnOk result (Gathers slab.now gathered.old.number (gathered.old.text.items ++ byte ∷ []) gathered.new
        (Adds W.contents w.old w.new)) }
{
    gathered.text.push(byte)?;
    if gathered.text.len() as u64 == count_along(slab, heads.len()) {
        put_numbered_row(w, heads, slab, gathered.number, &gathered.text, shown)?;
        gathered.text.clear();
        gathered.number += 1;
    }
    Ok(())
}

/// Adds the bytes of chars to their texts, and the rows of those that are whole.
fn put_chars<W: Write + Drop>(
    w: &mut Writer<W>,
    heads: &mut [Word],
    slab: &Slab,
    gathered: &mut Gathered,
    shown: &mut Vec<u8>,
    values: &[Char],
) -> Result<(), AllocError>
    requires between { IsBetween w.old }
    requires ranked { length slab.now.count ≡ length heads.old + 1 }
    requires fits { HasIndices slab.now }
    requires short { length gathered.old.text.items < last_number slab.now.count }
    requires there { done_in slab.now gathered.old + length values.now ≤ selected_count slab.now }
    requires counted { selected_count slab.now < 2 ^ 64 }
    ensures { OnOk result (Gathers slab.now gathered.old.number (gathered.old.text.items ++ bytes_of values.now)
        gathered.new (Adds W.contents w.old w.new)) }
{
    for k in 0..values.len() {
        put_char(w, heads, slab, gathered, shown, values[k].0)?;
    }
    Ok(())
}

/// Adds the rows to the page. Where that fails, which is for want of memory, the page is lost.
fn gather_chars(
    alloc: Global,
    page: &mut Vec<u8>,
    heads: &mut [Word],
    slab: &Slab,
    gathered: &mut Gathered,
    shown: &mut Vec<u8>,
    values: &[Char],
) -> Result<(), AllocError>
    requires ranked { length slab.now.count ≡ length heads.old + 1 }
    requires fits { HasIndices slab.now }
    requires short { length gathered.old.text.items < last_number slab.now.count }
    requires there { done_in slab.now gathered.old + length values.now ≤ selected_count slab.now }
    requires counted { selected_count slab.now < 2 ^ 64 }
    ensures { OnOk result (Gathers slab.now gathered.old.number (gathered.old.text.items ++ bytes_of values.now)
        gathered.new (λ rows. page.new.items ≡ page.old.items ++ rows)) }
{
    let mut w = Writer::from_writer(mem::replace(page, Vec::new(alloc)));
    put_chars(&mut w, heads, slab, gathered, shown, values)?;
    match w.into_inner() {
        Ok(text) => {
            *page = text;
            Ok(())
        }
        Err(_) => Err(AllocError),
    }
}

/// Sends the rows of a few chars by an empty page.
fn send_piece<W: Sink>(
    alloc: Global,
    page: &mut Vec<u8>,
    heads: &mut [Word],
    slab: &Slab,
    gathered: &mut Gathered,
    shown: &mut Vec<u8>,
    values: &[Char],
    sink: &mut W,
) -> Result<(), SendError>
    requires empty { page.old.items ≡ [] }
    requires ranked { length slab.now.count ≡ length heads.old + 1 }
    requires fits { HasIndices slab.now }
    requires short { length gathered.old.text.items < last_number slab.now.count }
    requires there { done_in slab.now gathered.old + length values.now ≤ selected_count slab.now }
    requires counted { selected_count slab.now < 2 ^ 64 }
    ensures empty { OnOk result (page.new.items ≡ []) }
    ensures sent { SendsFull slab.now gathered.old.number (gathered.old.text.items ++ bytes_of values.now) gathered.new
        (W.put sink.old) (W.put sink.new) result }
    ensures count { Blames (W.failures sink.old) (W.failures sink.new) result }
{
    gather_chars(alloc, page, heads, slab, gathered, shown, values)?;
    send_page(page, sink)
}

/// Sends the rows of chars, piece by piece, by an empty page.
fn send_pieces<W: Sink>(
    alloc: Global,
    page: &mut Vec<u8>,
    heads: &mut [Word],
    slab: &Slab,
    gathered: &mut Gathered,
    shown: &mut Vec<u8>,
    values: &[Char],
    sink: &mut W,
) -> Result<(), SendError>
    requires empty { page.old.items ≡ [] }
    requires ranked { length slab.now.count ≡ length heads.old + 1 }
    requires fits { HasIndices slab.now }
    requires short { length gathered.old.text.items < last_number slab.now.count }
    requires there { done_in slab.now gathered.old + length values.now ≤ selected_count slab.now }
    requires counted { selected_count slab.now < 2 ^ 64 }
    ensures sent { SendsFull slab.now gathered.old.number (gathered.old.text.items ++ bytes_of values.now) gathered.new
        (W.put sink.old) (W.put sink.new) result }
    ensures count { Blames (W.failures sink.old) (W.failures sink.new) result }
{
    let rows = (FIELDS / (heads.len() as u64).saturating_add(2)).max(1);
    let most = rows
        .saturating_mul(count_along(slab, heads.len()))
        .min(CHARS) as usize;
    let mut done = 0;
    while done < values.len() {
        let rest = values.split_at(done).1;
        let piece = rest.split_at(rest.len().min(most)).0;
        send_piece(alloc, page, heads, slab, gathered, shown, piece, sink)?;
        done += piece.len();
    }
    Ok(())
}

/// Sends the rows of the texts that these chars make whole, through a buffer of some 64 KiB, or of one row where that
/// is longer. After an `Err` a front of them is sent.
pub fn send_chars<W: Sink>(
    alloc: Global,
    slab: &Slab,
    gathered: &mut Gathered,
    values: &[Char],
    sink: &mut W,
) -> Result<(), SendError>
    requires fits { HasIndices slab.now }
    requires short { length gathered.old.text.items < last_number slab.now.count }
    requires there { done_in slab.now gathered.old + length values.now ≤ selected_count slab.now }
    requires counted { selected_count slab.now < 2 ^ 64 }
    ensures sent { SendsFull slab.now gathered.old.number (gathered.old.text.items ++ bytes_of values.now) gathered.new
        (W.put sink.old) (W.put sink.new) result }
    ensures count { Blames (W.failures sink.old) (W.failures sink.new) result }
{
    let mut page = Vec::new(alloc);
    let mut shown = Vec::new(alloc);
    let mut heads = vec![in alloc; Word::unsigned(0); slab.count.len().saturating_sub(1)]?;
    send_pieces(
        alloc,
        &mut page,
        heads.as_mut_slice(),
        slab,
        gathered,
        &mut shown,
        values,
        sink,
    )
}
