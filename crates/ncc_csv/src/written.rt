//! Texts that are written so that they end at a given place.

ghost use Rattle.std.specs.Prelude.{◌≡◌, ◌+◌, ◌≤◌, ◌++◌, length, drop};
ghost use Rattle.std.specs.Fmt.{decimal, signed_decimal};
ghost use Rattle.ncc_csv.specs.Plain.{IsPlain};
ghost use Rattle.ncc_csv.specs.Values.{bits_text};

use itoa::write_digits;
use ncc_lines::byte_digits;

/// Writes a text, and answers where it starts.
pub fn write_text(text: &[u8], room: &mut [u8], end: usize) -> usize
    requires { (length text.now ≤ end) × (end ≤ length room.old) }
    ensures start { result + length text.now ≡ end }
    ensures written { drop result room.new ≡ text.now ++ drop end room.old }
{
    let start = end - text.len();
    room[start..end].copy_from_slice(text);
    start
}

/// Writes an unsigned integer in decimal, and answers where it starts.
pub fn write_unsigned(n: u64, room: &mut [u8], end: usize) -> usize
    requires { (20 ≤ end) × (end ≤ length room.old) }
    ensures start { result + length (decimal n) ≡ end }
    ensures written { drop result room.new ≡ decimal n ++ drop end room.old }
    ensures short { length (decimal n) ≤ 20 }
    ensures plain { IsPlain (decimal n) }
{
    write_digits(n, room, end)
}

/// Writes a signed integer in decimal, and answers where it starts.
pub fn write_signed(n: i64, room: &mut [u8], end: usize) -> usize
    requires { (20 ≤ end) × (end ≤ length room.old) }
    ensures start { result + length (signed_decimal n) ≡ end }
    ensures written { drop result room.new ≡ signed_decimal n ++ drop end room.old }
    ensures short { length (signed_decimal n) ≤ 20 }
    ensures plain { IsPlain (signed_decimal n) }
{
    let start = write_digits(n.unsigned_abs(), room, end);
    if n >= 0 {
        return start;
    }
    room[start - 1] = b'-';
    start - 1
}

/// The bits of a float, in hexadecimal.
pub fn float_digits(bits: [u8; 4]) -> [u8; 10]
    ensures { result ≡ bits_text bits }
{
    let [a, b] = byte_digits(bits[0]);
    let [c, d] = byte_digits(bits[1]);
    let [e, f] = byte_digits(bits[2]);
    let [g, h] = byte_digits(bits[3]);
    [b'0', b'x', a, b, c, d, e, f, g, h]
}

/// The bits of a double, in hexadecimal.
pub fn double_digits(bits: [u8; 8]) -> [u8; 18]
    ensures { result ≡ bits_text bits }
{
    let [a, b] = byte_digits(bits[0]);
    let [c, d] = byte_digits(bits[1]);
    let [e, f] = byte_digits(bits[2]);
    let [g, h] = byte_digits(bits[3]);
    let [i, j] = byte_digits(bits[4]);
    let [k, l] = byte_digits(bits[5]);
    let [m, n] = byte_digits(bits[6]);
    let [o, p] = byte_digits(bits[7]);
    [b'0', b'x', a, b, c, d, e, f, g, h, i, j, k, l, m, n, o, p]
}
