//! Bytes of values put into a buffer.

ghost use Rattle.std.specs.Prelude.{◌≡◌, ◌+◌, ◌*◌, ◌%◌, ◌<◌, ◌≤◌, ◌++◌, length, take, drop, replicate};
ghost use Rattle.std.specs.List.{concat};
ghost use Rattle.ncc_values.specs.Numbers.{IsBytes};
ghost use Rattle.ncc_values.specs.Values.{bytes_of, count_of, type_of};
ghost use Rattle.ncc_values.specs.XType.{size_of};

use ncc_values::{Values, XType};

/// Puts `count` values from `first` on into the buffer, from a place on, and tells where they end.
pub(crate) fn put_at(
    buffer: &mut [u8],
    place: usize,
    values: &Values,
    first: usize,
    count: usize,
) -> usize
    requires there { first + count ≤ count_of values.now }
    requires room { place + count * size_of (type_of values.now) ≤ length buffer.old }
    ensures end { result ≡ place + count * size_of (type_of values.now) }
    ensures bytes { take result buffer.new ≡ take place buffer.old ++ take (count * size_of (type_of values.now))
        (drop (first * size_of (type_of values.now)) (bytes_of values.now)) }
    ensures room { length buffer.new ≡ length buffer.old }
{
    let end = place + count * values.xtype().size();
    values.put_from(first, &mut buffer[place..end]);
    end
}

/// Puts bytes into the buffer, from a place on.
#[inline(always)]
pub(crate) fn copy_at(buffer: &mut [u8], place: usize, bytes: &[u8])
    requires { place + length bytes.now ≤ length buffer.old }
    ensures bytes { take (place + length bytes.now) buffer.new ≡ take place buffer.old ++ bytes.now }
    ensures room { length buffer.new ≡ length buffer.old }
{
    // 4 or 8 bytes are copied without a call.
    match bytes.len() {
        4 => buffer[place..place + 4].copy_from_slice(bytes),
        8 => buffer[place..place + 8].copy_from_slice(bytes),
        count => buffer[place..place + count].copy_from_slice(bytes),
    }
}

/// Copies so many bytes of the buffer, from a place on, to a later one that they don't reach.
fn copy_again(buffer: &mut [u8], place: usize, count: usize, to: usize)
    requires before { place + count ≤ to }
    requires room { to + count ≤ length buffer.old }
    ensures bytes { take (to + count) buffer.new ≡ take to buffer.old ++ take count (drop place buffer.old) }
    ensures room { length buffer.new ≡ length buffer.old }
{
    buffer.copy_within(place..place + count, to);
}

/// How many fill values are put one by one, before what is there is copied.
const FEW: usize = 64;

/// Puts the bytes of a fill value into the buffer `count` times, from a place on, one by one.
#[inline(always)]
fn fill_singly(buffer: &mut [u8], place: usize, fill: &[u8], count: usize)
    requires { place + count * length fill.now ≤ length buffer.old }
    ensures bytes { take (place + count * length fill.now) buffer.new
        ≡ take place buffer.old ++ concat (replicate count fill.now) }
    ensures room { length buffer.new ≡ length buffer.old }
{
    for done in 0..count {
        copy_at(buffer, place + done * fill.len(), fill);
    }
}

/// The same for a size that the compiler knows: it makes wide moves of many small ones.
#[inline(always)]
fn fill_sized<const N: usize>(buffer: &mut [u8], place: usize, fill: &[u8], count: usize)
    requires size { length fill.now ≡ N }
    requires room { place + count * length fill.now ≤ length buffer.old }
    ensures bytes { take (place + count * length fill.now) buffer.new
        ≡ take place buffer.old ++ concat (replicate count fill.now) }
    ensures room { length buffer.new ≡ length buffer.old }
{
    let mut value = [0; N];
    value.copy_from_slice(&fill[..N]);
    fill_singly(buffer, place, &value, count);
}

/// The same for a size of any type.
fn fill_few(buffer: &mut [u8], place: usize, fill: &[u8], count: usize)
    requires { place + count * length fill.now ≤ length buffer.old }
    ensures bytes { take (place + count * length fill.now) buffer.new
        ≡ take place buffer.old ++ concat (replicate count fill.now) }
    ensures room { length buffer.new ≡ length buffer.old }
{
    match fill.len() {
        1 => fill_sized::<1>(buffer, place, fill, count),
        2 => fill_sized::<2>(buffer, place, fill, count),
        4 => fill_sized::<4>(buffer, place, fill, count),
        8 => fill_sized::<8>(buffer, place, fill, count),
        _ => fill_singly(buffer, place, fill, count),
    }
}

/// Puts the bytes of a fill value into the buffer `count` times, from a place on, and tells where they end. After the
/// first of them what is there is copied after itself, so that each copy but the last is twice as long as the one
/// before it.
pub(crate) fn fill_at(buffer: &mut [u8], place: usize, fill: &[u8], count: usize) -> usize
    requires { place + count * length fill.now ≤ length buffer.old }
    ensures end { result ≡ place + count * length fill.now }
    ensures bytes { take result buffer.new ≡ take place buffer.old ++ concat (replicate count fill.now) }
    ensures room { length buffer.new ≡ length buffer.old }
{
    let size = fill.len();
    let mut done = count.min(FEW);
    fill_few(buffer, place, fill, done);
    while done < count {
        let more = done.min(count - done);
        copy_again(buffer, place, more * size, place + done * size);
        done += more;
    }
    place + count * size
}

/// How many elements of the type these bytes are.
pub(crate) fn elements_in(xtype: XType, bytes: &[u8]) -> u64
    requires { length bytes.now % size_of xtype ≡ 0 }
    ensures { length bytes.now ≡ result * size_of xtype }
{
    (bytes.len() / xtype.size()) as u64
}

/// Says of each of these that it is a byte.
pub(crate) fn are_bytes(bytes: &[u8])
    ensures { IsBytes bytes.now }
{
    for byte in bytes {
        let _value = *byte;
    }
}
