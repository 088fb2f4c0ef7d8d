//! Numbers without a sign, of any width up to eight bytes.

ghost use Rattle.std.specs.Prelude.{◌≡◌, ◌≤◌, ◌<◌, length};
ghost use Rattle.ncc_values.specs.Numbers.{number_of};

use byteorder::{BigEndian, ByteOrder};

/// The number whose bytes these are, 1 to 8 of them, the most significant first.
#[inline]
pub fn number(bytes: &[u8]) -> u64
    requires some { 0 < length bytes.now }
    requires few { length bytes.now ≤ 8 }
    ensures { result ≡ number_of bytes.now }
{
    match bytes.len() {
        4 => BigEndian::read_u32(bytes) as u64,
        8 => BigEndian::read_u64(bytes),
        len => BigEndian::read_uint(bytes, len),
    }
}
