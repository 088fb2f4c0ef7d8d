//! Rows of values in memory.

ghost use Rattle.std.specs.Prelude.{◌≡◌, ◌⊎◌, ◌+◌, ◌*◌, ◌-◌, ◌^◌, ◌<◌, ◌≤◌, ℕ, List, [], ◌∷◌, ◌++◌, length, map, drop, decimal, OnOk, OnErr};
ghost use Rattle.std.specs.List.{AllByRecursion};
ghost use Rattle.std.specs.Vec.{vec_len, vec_capacity};
ghost use Rattle.ncc_csv.specs.Word.{word_text};
ghost use Rattle.ncc_csv.specs.Plain.{IsPlain, with_commas};
ghost use Rattle.ncc_csv.specs.Rows.{row_line};
ghost use Rattle.ncc_csv.specs.Runs.{run_row, first_rows};

use crate::cell::Cell;
use crate::word::Word;
use crate::written::write_unsigned;
use ncc_lines::FloatStyle;
use std::alloc::AllocError;

/// As many bytes as the last index and the value take in a row at most, with a comma and a line feed.
const ROOM: usize = 46;

/// The longest front, in bytes, of rows that are laid out together.
const FRONT: usize = 64;

/// How many rows are laid out together at most.
const ROWS: usize = 16;

/// The room for these rows, each of at most 110 bytes (a front, an index of 20, a comma, a value of 24, a line feed), and
/// 64 bytes that nothing needs.
pub const ROOM_OF_ROWS: usize = 1824;

/// Makes the front of the rows of a run: the indices that they share, with a comma after each.
fn set_front(front: &mut Vec<u8>, heads: &[Word]) -> Result<(), AllocError>
    ensures front { OnOk result (front.new.items ≡ with_commas (map word_text heads.now)) }
    ensures full { OnErr result (vec_capacity front.old < length (with_commas (map word_text heads.now))) }
{
    front.clear();
    for k in 0..heads.len() {
        front.extend_from_slice(heads[k].as_slice())?;
        front.push(b',')?;
    }
    Ok(())
}

/// Writes a value and a line feed at the end of the room, and answers where the value starts.
#[inline(always)]
fn write_value<T: Cell>(room: &mut [u8], value: T, style: FloatStyle) -> usize
    requires { length room.old ≡ 46 }
    ensures start { result + length (T.text style value) ≡ 45 }
    ensures written { drop result room.new ≡ T.text style value ++ 10 ∷ [] }
    ensures short { length (T.text style value) ≤ 24 }
    ensures plain { IsPlain (T.text style value) }
{
    room[ROOM - 1] = b'\n';
    value.write(style, room, ROOM - 1)
}

/// Lays a row of a run out so that it ends at `at`, its front, the last index and the value, and answers where it starts.
/// The front is the last `size` bytes of its array, which is copied whole: what stands before the row is lost.
#[inline]
fn lay_row<T: Cell>(
    room: &mut [u8],
    at: usize,
    front: &[u8; FRONT],
    size: usize,
    index: u64,
    value: T,
    style: FloatStyle,
) -> usize
    requires there { (174 ≤ at) × (at ≤ length room.old) }
    requires short { size ≤ 64 }
    ensures row { drop result room.new ≡ (drop (64 - size) front.now
        ++ (decimal index ++ 44 ∷ (T.text style value ++ 10 ∷ []))) ++ drop at room.old }
    ensures start { (result ≤ at) × (at ≤ result + 110) }
    ensures plain { IsPlain (T.text style value) }
{
    room[at - 1] = b'\n';
    let end = value.write(style, room, at - 1) - 1;
    room[end] = b',';
    let start = write_unsigned(index, room, end);
    room[start - FRONT..start].copy_from_slice(front);
    start - size
}

/// Adds the rows of a run from one on up to another, by one copy: they are laid out from the last to the first, where each
/// is written once.
fn put_rows_at_once<T: Cell>(
    page: &mut Vec<u8>,
    room: &mut [u8],
    front: &[u8; FRONT],
    size: usize,
    start: u64,
    stride: u64,
    values: &[T],
    from: usize,
    to: usize,
    style: FloatStyle,
) -> Result<(), AllocError>
    requires room { length room.old ≡ 1824 }
    requires short { size ≤ 64 }
    requires span { (from ≤ to) × (to ≤ length values.now) }
    requires few { to ≤ from + 16 }
    requires fits { start + (length values.now - 1) * stride < 2 ^ 64 }
    ensures rows { (before : List ℕ) (heads : List (List ℕ)) → AllByRecursion IsPlain heads
        → drop (64 - size) front.now ≡ with_commas heads
        → page.old.items ≡ before ++ first_rows (run_row heads start stride (map (T.text style) values.now)) from
        → OnOk result (page.new.items
        ≡ before ++ first_rows (run_row heads start stride (map (T.text style) values.now)) to) }
    ensures full { (before : List ℕ) (heads : List (List ℕ)) → AllByRecursion IsPlain heads
        → drop (64 - size) front.now ≡ with_commas heads
        → page.old.items ≡ before ++ first_rows (run_row heads start stride (map (T.text style) values.now)) from
        → OnErr result (vec_capacity page.old < length before
        + length (first_rows (run_row heads start stride (map (T.text style) values.now)) to)) }
    ensures capacity { vec_capacity page.old ≤ vec_capacity page.new }
{
    let mut at = room.len();
    let mut k = to;
    while k > from {
        k -= 1;
        at = lay_row(
            room,
            at,
            front,
            size,
            start + k as u64 * stride,
            values[k],
            style,
        );
    }
    page.extend_from_slice(room.split_at(at).1)
}

/// Adds a row of a run: its front, the last index and the value. It is kept in line: a call would make runs of one row
/// slower.
#[inline(always)]
fn put_row<T: Cell>(
    page: &mut Vec<u8>,
    front: &[u8],
    index: u64,
    value: T,
    style: FloatStyle,
) -> Result<(), AllocError>
    ensures row { OnOk result (page.new.items
        ≡ page.old.items ++ (front.now ++ (decimal index ++ 44 ∷ (T.text style value ++ 10 ∷ [])))) }
    ensures full { OnErr result (vec_capacity page.old < vec_len page.old
        + length (front.now ++ (decimal index ++ 44 ∷ (T.text style value ++ 10 ∷ [])))) }
    ensures capacity { vec_capacity page.old ≤ vec_capacity page.new }
    ensures plain { IsPlain (T.text style value) }
{
    let mut room = [0; ROOM];
    let end = write_value(&mut room, value, style) - 1;
    room[end] = b',';
    let start = write_unsigned(index, &mut room, end);
    page.extend_from_slice(front)?;
    page.extend_from_slice(room.split_at(start).1)
}

/// Adds the row of a value without indices.
pub fn put_alone<T: Cell>(page: &mut Vec<u8>, value: T, style: FloatStyle) -> Result<(), AllocError>
    ensures { OnOk result (page.new.items ≡ page.old.items ++ row_line (T.text style value ∷ [])) }
{
    let mut room = [0; ROOM];
    let start = write_value(&mut room, value, style);
    page.extend_from_slice(room.split_at(start).1)
}

/// Adds the rows of a run with a short front, up to 16 at a time. It is kept out of line, as it was when one loop served
/// short runs too: inlined there, it made runs of one row slower.
#[inline(never)]
fn put_together<T: Cell>(
    page: &mut Vec<u8>,
    room: &mut [u8],
    front: &[u8],
    start: u64,
    stride: u64,
    values: &[T],
    style: FloatStyle,
) -> Result<(), AllocError>
    requires room { length room.old ≡ 1824 }
    requires short { length front.now ≤ 64 }
    requires fits { start + (length values.now - 1) * stride < 2 ^ 64 }
    ensures rows { (heads : List (List ℕ)) → AllByRecursion IsPlain heads → front.now ≡ with_commas heads
        → OnOk result (page.new.items
        ≡ page.old.items ++ first_rows (run_row heads start stride (map (T.text style) values.now)) (length values.now)) }
    ensures full { (heads : List (List ℕ)) → AllByRecursion IsPlain heads → front.now ≡ with_commas heads
        → OnErr result (vec_capacity page.old < vec_len page.old
        + length (first_rows (run_row heads start stride (map (T.text style) values.now)) (length values.now))) }
{
    let mut shared = [0; FRONT];
    let size = front.len();
    shared[FRONT - size..].copy_from_slice(front);
    let mut done = 0;
    while done < values.len() {
        let to = done + ROWS.min(values.len() - done);
        put_rows_at_once(
            page, room, &shared, size, start, stride, values, done, to, style,
        )?;
        done = to;
    }
    Ok(())
}

/// Adds the rows of values along the last dimension: their last indices are `start`, `start + stride` and so on. With
/// `TOGETHER`, `FEWEST` of them or more with a short front are laid out in the room, whose bytes don't matter before or
/// after; else each is added by itself.
pub fn put_run<T: Cell, const TOGETHER: bool>(
    page: &mut Vec<u8>,
    front: &mut Vec<u8>,
    room: &mut [u8],
    heads: &[Word],
    start: u64,
    stride: u64,
    values: &[T],
    style: FloatStyle,
) -> Result<(), AllocError>
    requires plain { AllByRecursion IsPlain (map word_text heads.now) }
    requires room { length room.old ≡ 1824 }
    requires fits { start + (length values.now - 1) * stride < 2 ^ 64 }
    ensures rows { OnOk result (page.new.items ≡ page.old.items
        ++ first_rows (run_row (map word_text heads.now) start stride (map (T.text style) values.now)) (length values.now)) }
    // Memory is wanted only for a page without room for the rows, or a front without room for their indices.
    ensures full { OnErr result ((vec_capacity page.old < vec_len page.old
        + length (first_rows (run_row (map word_text heads.now) start stride (map (T.text style) values.now)) (length values.now)))
        ⊎ (vec_capacity front.old < length (with_commas (map word_text heads.now)))) }
{
    set_front(front, heads)?;
    if TOGETHER && values.len() >= T::FEWEST && front.len() <= FRONT {
        return put_together(page, room, front, start, stride, values, style);
    }
    for k in 0..values.len() {
        put_row(page, front, start + k as u64 * stride, values[k], style)?;
    }
    Ok(())
}
