//! The rows of elements that follow one another, in memory.

ghost use Rattle.std.specs.Prelude.{◌≡◌, ◌+◌, ◌-◌, ◌^◌, ◌<◌, ◌≤◌, ◌++◌, length, map, IfOk, OnOk};
ghost use Rattle.ncc_slab.specs.Selection.{selected_count};
ghost use Rattle.ncc_csv.specs.Rows.{HasIndices};
ghost use Rattle.ncc_csv.specs.Runs.{slab_row, first_rows};

use crate::cell::Cell;
use crate::heads::{count_along, index_along, set_heads, stride_along};
use crate::row::{ROOM_OF_ROWS, put_alone, put_run};
use crate::word::Word;
use ncc_lines::FloatStyle;
use ncc_slab::Slab;
use std::alloc::{AllocError, Global};

/// Adds the rows of the elements that share all indices but the last with the element of this number, from that
/// one on, and answers how many. `TOGETHER` is as in `put_run`.
fn put_next_run<T: Cell, const TOGETHER: bool>(
    page: &mut Vec<u8>,
    front: &mut Vec<u8>,
    room: &mut [u8],
    heads: &mut [Word],
    slab: &Slab,
    number: u64,
    values: &[T],
    style: FloatStyle,
) -> Result<usize, AllocError>
    requires ranked { length slab.now.count ≡ length heads.old + 1 }
    requires room { length room.old ≡ 1824 }
    requires fits { HasIndices slab.now }
    requires some { 0 < length values.now }
    requires there { number + length values.now ≤ selected_count slab.now }
    ensures some { IfOk result (λ n. 0 < n) }
    ensures within { IfOk result (λ n. n ≤ length values.now) }
    ensures added { IfOk result (λ n. page.new.items ≡ page.old.items
        ++ first_rows (slab_row slab.now number (map (T.text style) values.now)) n) }
{
    let last = heads.len();
    let count = count_along(slab, last);
    let at = number % count;
    set_heads(heads, slab, number / count);
    let n = values.len().min((count - at) as usize);
    let start = index_along(slab, last, at);
    put_run::<T, TOGETHER>(
        page,
        front,
        room,
        heads,
        start,
        stride_along(slab, last),
        values.split_at(n).0,
        style,
    )?;
    Ok(n)
}

/// Adds the rows of the elements from this number on, run by run. `TOGETHER` is as in `put_run`.
fn put_runs<T: Cell, const TOGETHER: bool>(
    alloc: Global,
    page: &mut Vec<u8>,
    heads: &mut [Word],
    slab: &Slab,
    first: u64,
    values: &[T],
    style: FloatStyle,
) -> Result<(), AllocError>
    requires ranked { length slab.now.count ≡ length heads.old + 1 }
    requires fits { HasIndices slab.now }
    requires there { first + length values.now ≤ selected_count slab.now }
    requires counted { selected_count slab.now < 2 ^ 64 }
    ensures { OnOk result (page.new.items ≡ page.old.items
        ++ first_rows (slab_row slab.now first (map (T.text style) values.now)) (length values.now)) }
{
    let mut front = Vec::new(alloc);
    let mut room = [0; ROOM_OF_ROWS];
    let mut done = 0;
    while done < values.len() {
        let rest = values.split_at(done).1;
        let number = first + done as u64;
        done += put_next_run::<T, TOGETHER>(
            page, &mut front, &mut room, heads, slab, number, rest, style,
        )?;
    }
    Ok(())
}

/// Adds the row of the one element of a selection without dimensions.
fn put_scalar<T: Cell>(
    page: &mut Vec<u8>,
    slab: &Slab,
    first: u64,
    values: &[T],
    style: FloatStyle,
) -> Result<(), AllocError>
    requires scalar { length slab.now.count ≡ 0 }
    requires there { first + length values.now ≤ selected_count slab.now }
    ensures { OnOk result (page.new.items ≡ page.old.items
        ++ first_rows (slab_row slab.now first (map (T.text style) values.now)) (length values.now)) }
{
    for k in 0..values.len() {
        put_alone(page, values[k], style)?;
    }
    Ok(())
}

/// Adds the rows of the elements from this number on. Short runs have a loop of their own: what rows together need would
/// make each of them a little slower.
pub fn put_rows<T: Cell>(
    alloc: Global,
    page: &mut Vec<u8>,
    heads: &mut [Word],
    slab: &Slab,
    first: u64,
    values: &[T],
    style: FloatStyle,
) -> Result<(), AllocError>
    requires ranked { length heads.old ≡ length slab.now.count - 1 }
    requires fits { HasIndices slab.now }
    requires there { first + length values.now ≤ selected_count slab.now }
    requires counted { selected_count slab.now < 2 ^ 64 }
    ensures { OnOk result (page.new.items ≡ page.old.items
        ++ first_rows (slab_row slab.now first (map (T.text style) values.now)) (length values.now)) }
{
    if slab.count.is_empty() {
        return put_scalar(page, slab, first, values, style);
    }
    if count_along(slab, heads.len()) < T::FEWEST as u64 {
        return put_runs::<T, false>(alloc, page, heads, slab, first, values, style);
    }
    put_runs::<T, true>(alloc, page, heads, slab, first, values, style)
}
