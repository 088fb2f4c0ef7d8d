//! Elements of the external types, and the bytes that they have in a file.

ghost use Rattle.std.specs.Prelude.{◌≡◌, ℕ, ℤ, List, length};
ghost use Rattle.ncc_values.specs.Numbers.{IsBytes};

use crate::xtype::XType;

/// An element of an external type, which has `SIZE` bytes in a file, the most significant first.
pub trait External {
    ghost use Rattle.ncc_values.specs.declared.xtype.XType.{XType};
    ghost use Rattle.ncc_values.specs.XType.{size_of};
    ghost use Rattle.ncc_values.specs.External.{number_in, bytes_in, IsNumberOf};

    ghost TYPE: { XType };

    ghost SIZE: { ℕ };

    // The element as a number, and the element of a number.
    ghost number: { Self → ℤ };

    ghost element: { ℤ → Self };

    /// The type in a file.
    const TYPE: XType;

    /// The bytes of one element.
    const SIZE: usize;

    /// The element that the bytes spell: in a signed type by two's complement.
    fn get(bytes: &[u8]) -> Self
        requires { length bytes.now ≡ SIZE }
        ensures { number result ≡ number_in TYPE bytes.now };

    /// Writes the bytes of the element.
    fn put(self, out: &mut [u8])
        requires { length out.old ≡ SIZE }
        ensures { out.new ≡ bytes_in TYPE (number self) };

    // The size is the type's.
    ghost has_size: { SIZE ≡ size_of TYPE };

    // An element is told by its number.
    ghost element_of_number: { (x : Self) → element (number x) ≡ x };

    // What `put` left of an element of the type's range, `get` gives back.
    ghost get_of_put: { (x : Self) → IsNumberOf TYPE (number x) → element (number_in TYPE (bytes_in TYPE (number x))) ≡ x };

    // What `get` gave of bytes, `put` leaves again.
    ghost put_of_get: { (bytes : List ℕ) → IsBytes bytes → length bytes ≡ SIZE → bytes_in TYPE (number (element (number_in TYPE bytes))) ≡ bytes };
}
