//! The text of a decimal, written from its end: put before the text that a room has from `start` on, by functions that
//! answer where it starts then. What stands before it stays.

ghost use Rattle.std.specs.Prelude.{◌≡◌, ◌+◌, ◌-◌, ◌/◌, ◌^◌, ◌<◌, ◌≤◌, ◌⊎◌, ◌==◌, if◌then◌else◌};
ghost use Rattle.std.specs.Prelude.{◌∷◌, ◌++◌, length, take, drop, replicate, decimal};
ghost use Rattle.ncc_decimal.specs.Texts.{last_digits, pointed, exponent_text, scientific, decimal_text};

use crate::decimal::Decimal;
use itoa::write_digits;

/// Puts a byte before the text.
#[inline(always)]
pub(crate) fn put(room: &mut [u8], start: usize, byte: u8) -> usize
    requires { (0 < start) × (start ≤ length room.old) }
    ensures text { drop result room.new ≡ byte ∷ drop start room.old }
    ensures before { take result room.new ≡ take result room.old }
    ensures room { result + 1 ≡ start }
{
    room[start - 1] = byte;
    start - 1
}

/// Puts a word before the text.
#[inline(always)]
pub(crate) fn put_word(room: &mut [u8], start: usize, word: &[u8]) -> usize
    requires { (length word.now ≤ start) × (start ≤ length room.old) }
    ensures text { drop result room.new ≡ word.now ++ drop start room.old }
    ensures before { take result room.new ≡ take result room.old }
    ensures room { result + length word.now ≡ start }
{
    let first = start - word.len();
    room[first..start].copy_from_slice(word);
    first
}

/// Puts the last `count` digits of a number, and returns the number before them.
#[inline(always)]
fn put_last(room: &mut [u8], start: usize, n: u64, count: usize) -> u64
    requires { (count ≤ start) × (start ≤ length room.old) }
    ensures text { drop (start - count) room.new ≡ last_digits count n ++ drop start room.old }
    ensures before { take (start - count) room.new ≡ take (start - count) room.old }
    ensures rest { result ≡ n / 10 ^ count }
{
    let mut rest = n;
    for i in 0..count {
        put(room, start - i, b'0' + (rest % 10) as u8);
        rest /= 10;
    }
    rest
}

/// Puts so many zeros.
#[inline(always)]
fn put_zeros(room: &mut [u8], start: usize, count: usize) -> usize
    requires { (count ≤ start) × (start ≤ length room.old) }
    ensures text { drop result room.new ≡ replicate count 48 ++ drop start room.old }
    ensures before { take result room.new ≡ take result room.old }
    ensures room { result + count ≡ start }
{
    for i in 0..count {
        put(room, start - i, b'0');
    }
    start - count
}

/// Puts a number with a point before its last `count` digits.
#[inline(always)]
fn put_pointed(room: &mut [u8], start: usize, n: u64, count: usize) -> usize
    requires { (length (decimal (n / 10 ^ count)) + count < start) × (start ≤ length room.old) }
    ensures text { drop result room.new ≡ pointed count n ++ drop start room.old }
    ensures before { take result room.new ≡ take result room.old }
    ensures room { result + length (decimal (n / 10 ^ count)) + count + 1 ≡ start }
{
    let whole = put_last(room, start, n, count);
    let point = put(room, start - count, b'.');
    write_digits(whole, room, point)
}

/// Writes the digits of a number before the text, of which they are no part yet, and returns where they start.
#[inline(always)]
fn write_ahead(room: &mut [u8], start: usize, n: u64) -> usize
    requires { (length (decimal n) ≤ start) × (start ≤ length room.old) }
    ensures digits { result + length (decimal n) ≡ start }
    ensures some { result < start }
    ensures ahead { drop result room.new ≡ decimal n ++ drop start room.old }
    ensures text { drop start room.new ≡ drop start room.old }
    ensures before { take result room.new ≡ take result room.old }
{
    write_digits(n, room, start)
}

/// Makes the digits of `n` that stand ahead from `first` on text, with a point before the last `count` of them. Those
/// before the point move by one.
#[inline(always)]
fn point_ahead(room: &mut [u8], start: usize, n: u64, first: usize, count: usize) -> usize
    requires digits { first + length (decimal n) ≡ start }
    requires ahead { drop first room.old ≡ decimal n ++ drop start room.old }
    requires whole { count < length (decimal n) }
    requires room { (0 < first) × (start ≤ length room.old) }
    ensures text { drop result room.new ≡ pointed count n ++ drop start room.old }
    ensures before { take result room.new ≡ take result room.old }
    ensures room { result + 1 ≡ first }
{
    let point = start - count;
    room.copy_within(first..point, first - 1);
    room[point - 1] = b'.';
    first - 1
}

/// Puts an exponent, of which 401 was added.
#[inline(never)]
#[tactic(auto, using(crate::proofs::Lengths::few_in_exponent))]
fn put_exponent(room: &mut [u8], start: usize, exponent: usize) -> usize
    requires { (4 ≤ start) × (start ≤ length room.old) × (exponent < 1000) }
    ensures text { drop result room.new ≡ exponent_text exponent ++ drop start room.old }
    ensures before { take result room.new ≡ take result room.old }
    ensures room { (result ≤ start) × (start ≤ result + 4) }
{
    if exponent < 401 {
        let first = write_digits((401 - exponent) as u64, room, start);
        put(room, first, b'-')
    } else {
        write_digits((exponent - 401) as u64, room, start)
    }
}

/// Puts a number of `count` digits with a point after the first, and an exponent.
#[tactic(auto, using(crate::proofs::Lengths::front_length))]
fn put_scientific(
    room: &mut [u8],
    start: usize,
    digits: u64,
    count: usize,
    exponent: usize,
) -> usize
    requires digits { count ≡ length (decimal digits) }
    requires some { 0 < count }
    requires room { (count + 6 ≤ start) × (start ≤ length room.old) × (exponent < 1000) }
    ensures text { drop result room.new ≡ scientific count digits exponent ++ drop start room.old }
    ensures before { take result room.new ≡ take result room.old }
    ensures room { (result + count ≤ start) × (start ≤ result + count + 6) }
{
    let sign = put_exponent(room, start, exponent);
    let end = put(room, sign, b'e');
    if count == 1 {
        write_digits(digits, room, end)
    } else {
        put_pointed(room, end, digits, count - 1)
    }
}

/// Puts a decimal of `count` digits whose point doesn't stand among them: in full, or with an exponent where it is large or
/// small. It isn't inlined, so that the usual way has no registers to save for it.
#[inline(never)]
#[tactic(auto, using(crate::proofs::Lengths::at_most_17, crate::proofs::Lengths::at_most_9, crate::proofs::Lengths::front_lengths))]
fn put_beside(room: &mut [u8], start: usize, d: Decimal, count: usize) -> usize
    requires few { (d.digits < 10 ^ 17) × (d.power < 800) }
    requires digits { count ≡ length (decimal d.digits) }
    requires some { 0 < count }
    requires beside { (400 ≤ d.power) ⊎ (count + d.power ≤ 400) }
    requires room { (23 ≤ start) × (start ≤ length room.old) }
    ensures text { drop result room.new ≡ decimal_text d.digits d.power ++ drop start room.old }
    ensures before { take result room.new ≡ take result room.old }
    ensures room { (result + count ≤ start) × (start ≤ result + 23) }
    ensures single { d.digits < 10 ^ 9 → start ≤ result + 17 }
{
    let power = d.power as usize;
    let exponent = count + power;
    if power < 400 {
        if exponent < 396 {
            put_scientific(room, start, d.digits, count, exponent)
        } else {
            put_pointed(room, start, d.digits, 400 - power)
        }
    } else if 417 < exponent {
        put_scientific(room, start, d.digits, count, exponent)
    } else {
        let end = put_zeros(room, start, power - 400);
        write_digits(d.digits, room, end)
    }
}

/// Puts a decimal: in full, or with an exponent where it is large or small.
#[tactic(auto, using(crate::proofs::Lengths::at_most_17, crate::proofs::Lengths::at_most_9, crate::proofs::Lengths::front_lengths))]
pub(crate) fn put_decimal(room: &mut [u8], start: usize, d: Decimal) -> usize
    requires few { (d.digits < 10 ^ 17) × (d.power < 800) }
    requires room { (23 ≤ start) × (start ≤ length room.old) }
    ensures text { drop result room.new ≡ decimal_text d.digits d.power ++ drop start room.old }
    ensures before { take result room.new ≡ take result room.old }
    ensures room { (result ≤ start) × (start ≤ result + 23) }
    ensures single { d.digits < 10 ^ 9 → start ≤ result + 17 }
{
    let first = write_ahead(room, start, d.digits);
    let count = start - first;
    let power = d.power as usize;
    if power < 400 && 400 < count + power {
        return point_ahead(room, start, d.digits, first, 400 - power);
    }
    put_beside(room, start, d, count)
}
