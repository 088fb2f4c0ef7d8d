//! The rows of texts of no characters.

ghost use Rattle.std.specs.Prelude.{◌≡◌, ◌<◌, ◌-◌, ◌^◌, [], length, take, IfOk};
ghost use Rattle.ncc_layout.specs.Sizes.{product};
ghost use Rattle.ncc_lines.specs.Sends.{Blames, SendsAll};
ghost use Rattle.ncc_slab.specs.Selection.{index_lists};
ghost use Rattle.ncc_csv.specs.Rows.{row_line, HasIndices};
ghost use Rattle.ncc_csv.specs.Runs.{first_rows};
ghost use Rattle.ncc_csv.specs.Texts.{but_last};
ghost use Rattle.ncc_csv.specs.TextRuns.{numbered_row};

use crate::text_row::put_numbered_row;
use crate::word::Word;
use csv::Writer;
use ncc_header::Sink;
use ncc_lines::{SendError, send_page};
use ncc_slab::{Slab, laws as slab_laws};
use std::alloc::{AllocError, Global};

/// The product of numbers. That of the last of them may be 2^64 or more, where one before these is 0.
fn product(numbers: &[u64]) -> u64
    requires { product numbers.now < 2 ^ 64 }
    ensures { result ≡ product numbers.now }
{
    let mut product: u64 = 1;
    let mut k = numbers.len();
    while k > 0 {
        k -= 1;
        product = numbers[k].saturating_mul(product);
    }
    product
}

/// The row with this number and an empty text, in memory.
fn empty_row(
    alloc: Global,
    heads: &mut [Word],
    slab: &Slab,
    number: u64,
    shown: &mut Vec<u8>,
) -> Result<Vec<u8>, AllocError>
    requires ranked { length heads.old ≡ length slab.now.count - 1 }
    requires fits { HasIndices slab.now }
    requires there { number < length (index_lists (take (length heads.old) slab.now.count)) }
    ensures { IfOk result (λ text. text.items ≡ row_line (numbered_row slab.now number [])) }
{
    let mut w = Writer::from_writer(Vec::new(alloc));
    put_numbered_row(&mut w, heads, slab, number, &[], shown)?;
    match w.into_inner() {
        Ok(text) => Ok(text),
        Err(_) => Err(AllocError),
    }
}

/// Sends the row with this number and an empty text.
fn send_empty_row<W: Sink>(
    alloc: Global,
    heads: &mut [Word],
    slab: &Slab,
    number: u64,
    shown: &mut Vec<u8>,
    sink: &mut W,
) -> Result<(), SendError>
    requires ranked { length heads.old ≡ length slab.now.count - 1 }
    requires fits { HasIndices slab.now }
    requires there { number < length (index_lists (take (length heads.old) slab.now.count)) }
    ensures sent { SendsAll (W.put sink.old) (W.put sink.new) (row_line (numbered_row slab.now number [])) result }
    ensures count { Blames (W.failures sink.old) (W.failures sink.new) result }
{
    let mut page = empty_row(alloc, heads, slab, number, shown)?;
    send_page(&mut page, sink)
}

/// Sends so many rows with empty texts.
fn send_empty_rows<W: Sink>(
    alloc: Global,
    heads: &mut [Word],
    slab: &Slab,
    rows: u64,
    sink: &mut W,
) -> Result<(), SendError>
    requires ranked { length heads.old ≡ length slab.now.count - 1 }
    requires fits { HasIndices slab.now }
    requires there { rows ≡ length (index_lists (take (length heads.old) slab.now.count)) }
    ensures sent { SendsAll (W.put sink.old) (W.put sink.new)
        (first_rows (λ k. numbered_row slab.now k []) rows) result }
    ensures count { Blames (W.failures sink.old) (W.failures sink.new) result }
{
    let mut shown = Vec::new(alloc);
    for number in 0..rows {
        send_empty_row(alloc, heads, slab, number, &mut shown, sink)?;
    }
    Ok(())
}

/// Sends the rows with an empty text, one for each list of the leading indices. After an `Err` a front of them is
/// sent.
pub fn send_empty_texts<W: Sink>(alloc: Global, slab: &Slab, sink: &mut W) -> Result<(), SendError>
    requires fits { HasIndices slab.now }
    requires counted { product (but_last slab.now.count) < 2 ^ 64 }
    ensures sent { SendsAll (W.put sink.old) (W.put sink.new)
        (first_rows (λ k. numbered_row slab.now k []) (length (index_lists (but_last slab.now.count)))) result }
    ensures count { Blames (W.failures sink.old) (W.failures sink.new) result }
{
    slab_laws::count_is_product();
    let leading = slab.count.len().saturating_sub(1);
    let mut heads = vec![in alloc; Word::unsigned(0); leading]?;
    let rows = product(slab.count.as_slice().split_at(leading).0);
    send_empty_rows(alloc, heads.as_mut_slice(), slab, rows, sink)
}
