//! Integers as they are printed, laid out from the last to the first: where a number begins is known once its digits
//! are written.

ghost use Rattle.std.specs.Prelude.{◌≡◌, ◌+◌, ◌*◌, ◌^◌, ◌<◌, ◌≤◌, ◌++◌, length, drop, codes, unsigned_abs, OnOk};
ghost use Rattle.std.specs.Fmt.{signed_decimal};
ghost use Rattle.std.specs.List.{flat_map};
ghost use Rattle.ncc_lines.specs.Words.{signed_word, unsigned_word};

use crate::values::printed::PIECE;
use itoa::write_digits;
use std::alloc::AllocError;

/// As many bytes as an integer takes at most: a space, and 20 digits or a sign and 19.
const WIDTH: usize = 21;

/// How many integers have a small room, which is sooner cleared.
const FEW: usize = 8;

/// An integer of at most 64 bits.
pub trait Whole: Copy {
    ghost use Rattle.std.specs.Prelude.{ℕ, List};

    /// What it adds to a line, a space and its digits.
    ghost word: { Self → List ℕ };

    /// Writes that so that it ends at `end`, and answers where it starts.
    fn lay(self, room: &mut [u8], end: usize) -> usize
        requires { (21 ≤ end) × (end ≤ length room.old) }
        ensures start { result + length (word self) ≡ end }
        ensures laid { drop result room.new ≡ word self ++ drop end room.old }
        ensures short { length (word self) ≤ 21 };
}

/// Writes a signed integer in decimal, by its magnitude, so that it ends at `end`, and answers where it starts. The
/// divisions of a magnitude of a type of 32 bits take less.
#[inline]
fn write_signed(n: i64, magnitude: u64, room: &mut [u8], end: usize) -> usize
    requires magnitude { (magnitude ≡ unsigned_abs n) × (magnitude ≤ 2 ^ 63) }
    requires room { (20 ≤ end) × (end ≤ length room.old) }
    ensures start { result + length (signed_decimal n) ≡ end }
    ensures written { drop result room.new ≡ signed_decimal n ++ drop end room.old }
    ensures short { length (signed_decimal n) ≤ 20 }
{
    let start = write_digits(magnitude, room, end);
    if n >= 0 {
        return start;
    }
    room[start - 1] = b'-';
    start - 1
}

/// Writes a space before what starts at `end`, and answers where it stands.
#[inline]
fn put_space(room: &mut [u8], end: usize) -> usize
    requires { (0 < end) × (end ≤ length room.old) }
    ensures place { result + 1 ≡ end }
    ensures put { drop result room.new ≡ codes " " ++ drop end room.old }
{
    room[end - 1] = b' ';
    end - 1
}

/// Writes a space and an unsigned integer.
#[inline]
fn lay_unsigned(n: u64, room: &mut [u8], end: usize) -> usize
    requires { (21 ≤ end) × (end ≤ length room.old) }
    ensures start { result + length (unsigned_word n) ≡ end }
    ensures laid { drop result room.new ≡ unsigned_word n ++ drop end room.old }
    ensures short { length (unsigned_word n) ≤ 21 }
{
    let start = write_digits(n, room, end);
    put_space(room, start)
}

/// Writes a space and a signed integer of this magnitude.
#[inline]
fn lay_signed(n: i64, magnitude: u64, room: &mut [u8], end: usize) -> usize
    requires magnitude { (magnitude ≡ unsigned_abs n) × (magnitude ≤ 2 ^ 63) }
    requires room { (21 ≤ end) × (end ≤ length room.old) }
    ensures start { result + length (signed_word n) ≡ end }
    ensures laid { drop result room.new ≡ signed_word n ++ drop end room.old }
    ensures short { length (signed_word n) ≤ 21 }
{
    let start = write_signed(n, magnitude, room, end);
    put_space(room, start)
}

/// Adds integers that have room, by one copy.
fn push_laid<I: Whole>(out: &mut Vec<u8>, values: &[I], room: &mut [u8]) -> Result<(), AllocError>
    requires { length values.now * 21 ≤ length room.old }
    ensures { OnOk result (out.new.items ≡ out.old.items ++ flat_map I.word values.now) }
{
    let mut start = room.len();
    let mut left = values.len();
    while left > 0 {
        left -= 1;
        start = values[left].lay(room, start);
    }
    out.extend_from_slice(room.split_at(start).1)
}

/// Adds a piece of integers. To add them one by one takes longer: each is a copy of bytes that were just stored.
pub fn push_integers<I: Whole>(out: &mut Vec<u8>, values: &[I]) -> Result<(), AllocError>
    requires { length values.now ≤ PIECE }
    ensures { OnOk result (out.new.items ≡ out.old.items ++ flat_map I.word values.now) }
{
    if values.len() <= FEW {
        return push_laid(out, values, &mut [0; WIDTH * FEW]);
    }
    push_laid(out, values, &mut [0; WIDTH * PIECE])
}

impl Whole for i8 {
    ghost word = { signed_word };

    fn lay(self, room: &mut [u8], end: usize) -> usize {
        lay_signed(self as i64, self.unsigned_abs() as u64, room, end)
    }
}

impl Whole for i16 {
    ghost word = { signed_word };

    fn lay(self, room: &mut [u8], end: usize) -> usize {
        lay_signed(self as i64, self.unsigned_abs() as u64, room, end)
    }
}

impl Whole for i32 {
    ghost word = { signed_word };

    fn lay(self, room: &mut [u8], end: usize) -> usize {
        lay_signed(self as i64, self.unsigned_abs() as u64, room, end)
    }
}

impl Whole for i64 {
    ghost word = { signed_word };

    fn lay(self, room: &mut [u8], end: usize) -> usize {
        lay_signed(self, self.unsigned_abs(), room, end)
    }
}

impl Whole for u8 {
    ghost word = { unsigned_word };

    fn lay(self, room: &mut [u8], end: usize) -> usize {
        lay_unsigned(self as u64, room, end)
    }
}

impl Whole for u16 {
    ghost word = { unsigned_word };

    fn lay(self, room: &mut [u8], end: usize) -> usize {
        lay_unsigned(self as u64, room, end)
    }
}

impl Whole for u32 {
    ghost word = { unsigned_word };

    fn lay(self, room: &mut [u8], end: usize) -> usize {
        lay_unsigned(self as u64, room, end)
    }
}

impl Whole for u64 {
    ghost word = { unsigned_word };

    fn lay(self, room: &mut [u8], end: usize) -> usize {
        lay_unsigned(self, room, end)
    }
}
