//! Lists of elements of one type, from and to their bytes.

ghost use Rattle.std.specs.Prelude.{◌≡◌, ◌+◌, ◌*◌, ◌/◌, ◌%◌, ◌≤◌, ◌++◌, [], length, take, IsOk, OnOk, OnErr};
ghost use Rattle.std.specs.Vec.{vec_len, vec_capacity};
ghost use Rattle.ncc_values.specs.Values.{elements_of, bytes_by};

use crate::external::External;
use std::alloc::AllocError;

/// Adds the elements that the bytes spell.
pub(crate) fn push_elements<T: External + Copy + Default>(
    items: &mut Vec<T>,
    bytes: &[u8],
) -> Result<(), AllocError>
    requires { length bytes.now % T.SIZE ≡ 0 }
    ensures ok { OnOk result (items.new.items ≡ items.old.items ++ elements_of T.element T.TYPE bytes.now) }
    ensures err { OnErr result (items.new.items ≡ items.old.items) }
    ensures room { vec_len items.old + length bytes.now / T.SIZE ≤ vec_capacity items.old → IsOk result }
    ensures none { bytes.now ≡ [] → IsOk result }
{
    let count = bytes.len() / T::SIZE;
    let start = items.len();
    items.reserve(count)?;
    items.resize(start + count, T::default())?;
    read_into(items, start, bytes);
    Ok(())
}

/// Writes the elements that the bytes spell over these.
fn read_elements<T: External + Copy>(items: &mut [T], bytes: &[u8])
    requires { length bytes.now ≡ length items.old * T.SIZE }
    ensures { items.new ≡ elements_of T.element T.TYPE bytes.now }
{
    'elements: for i in 0..items.len() {
        let start = i * T::SIZE;
        items[i] = T::get(&bytes[start..start + T::SIZE]);
    }
}

/// Writes the elements that the bytes spell over those from `start` on.
pub(crate) fn read_into<T: External + Copy>(items: &mut [T], start: usize, bytes: &[u8])
    requires whole { length bytes.now % T.SIZE ≡ 0 }
    requires there { start + length bytes.now / T.SIZE ≤ length items.old }
    ensures same { length items.new ≡ length items.old }
    ensures front { take (start + length bytes.now / T.SIZE) items.new
        ≡ take start items.old ++ elements_of T.element T.TYPE bytes.now }
{
    let end = start + bytes.len() / T::SIZE;
    read_elements(&mut items[start..end], bytes);
}

/// Writes the bytes of the elements.
pub(crate) fn put_elements<T: External + Copy>(items: &[T], out: &mut [u8])
    requires { length out.old ≡ length items.now * T.SIZE }
    ensures { out.new ≡ bytes_by T.number T.TYPE items.now }
{
    'elements: for i in 0..items.len() {
        let start = i * T::SIZE;
        items[i].put(&mut out[start..start + T::SIZE]);
    }
}
