//! Bytes copied out of others.

ghost use Rattle.std.specs.Prelude.{◌≡◌, ◌+◌, ◌≤◌, length, take, drop};

/// Copies so many bytes as the compiler knows: a move, through a register. A copy of one place to another asks first
/// whether the two overlap.
#[inline(always)]
fn move_to<const N: usize>(bytes: &[u8], out: &mut [u8])
    requires { (length bytes.now ≡ N) × (length out.old ≡ N) }
    ensures { out.new ≡ bytes.now }
{
    let mut value = [0; N];
    value.copy_from_slice(bytes);
    out.copy_from_slice(&value);
}

/// Copies the bytes from a place on: the 2, 4 or 8 of a value without a call.
#[inline(always)]
pub(crate) fn copy_from(bytes: &[u8], at: usize, out: &mut [u8])
    requires { at + length out.old ≤ length bytes.now }
    ensures { out.new ≡ take (length out.old) (drop at bytes.now) }
{
    match out.len() {
        2 => move_to::<2>(&bytes[at..at + 2], out),
        4 => move_to::<4>(&bytes[at..at + 4], out),
        8 => move_to::<8>(&bytes[at..at + 8], out),
        count => out.copy_from_slice(&bytes[at..at + count]),
    }
}
