//! Names are of bytes, and values in the ranges of their types: as each value of the program is, so
//! that nothing is looked for.

ghost use Rattle.ncc_values.specs.Values.{AreNumbersOf, AreInRange};

use ncc_values::{Char, External, F32Bits, F64Bits, Values};

/// An element whose number is one of its type.
pub trait Ranged: External {
    ghost use Rattle.ncc_values.specs.External.{IsNumberOf};

    /// Says so.
    fn in_range(self)
        ensures { IsNumberOf Self.TYPE (Self.number self) };
}

impl Ranged for i8 {
    fn in_range(self) {}
}

impl Ranged for i16 {
    fn in_range(self) {}
}

impl Ranged for i32 {
    fn in_range(self) {}
}

impl Ranged for i64 {
    fn in_range(self) {}
}

impl Ranged for u8 {
    fn in_range(self) {}
}

impl Ranged for u16 {
    fn in_range(self) {}
}

impl Ranged for u32 {
    fn in_range(self) {}
}

impl Ranged for u64 {
    fn in_range(self) {}
}

impl Ranged for Char {
    fn in_range(self) {
        let _code = self.0;
    }
}

impl Ranged for F32Bits {
    fn in_range(self) {
        let _bits = self.0;
    }
}

impl Ranged for F64Bits {
    fn in_range(self) {
        let _bits = self.0;
    }
}

/// Says so of each element.
pub fn all_in_range<T: Ranged + Copy>(items: &[T])
    ensures { AreNumbersOf T.number T.TYPE items.now }
{
    for item in items {
        item.in_range();
    }
}

/// Says so of each value.
pub fn values_in_range(values: &Values)
    ensures { AreInRange values.now }
{
    match values {
        Values::Bytes(items) => all_in_range(items.as_slice()),
        Values::Chars(items) => all_in_range(items.as_slice()),
        Values::Shorts(items) => all_in_range(items.as_slice()),
        Values::Ints(items) => all_in_range(items.as_slice()),
        Values::Floats(items) => all_in_range(items.as_slice()),
        Values::Doubles(items) => all_in_range(items.as_slice()),
        Values::UBytes(items) => all_in_range(items.as_slice()),
        Values::UShorts(items) => all_in_range(items.as_slice()),
        Values::UInts(items) => all_in_range(items.as_slice()),
        Values::Int64s(items) => all_in_range(items.as_slice()),
        Values::UInt64s(items) => all_in_range(items.as_slice()),
    }
}
