//! Values of one external type.

ghost use Rattle.std.specs.Prelude.{◌≡◌, ◌+◌, ◌*◌, ◌/◌, ◌%◌, ◌≤◌, ◌↔◌, [], length, take, drop, IsTrue, IsOk, IfOk, OnOk, OnErr};

use crate::inline_list::InlineList;
use crate::raw::{Char, F32Bits, F64Bits};
use crate::xtype::XType;
use std::alloc::{AllocError, Global};
use std::mem::size_of;

/// Values of one external type, in order. Those of up to 30 bytes take no allocation (of 64 bits 3).
#[derive(Debug, PartialEq, Eq, Drop)]
pub enum Values {
    Bytes(InlineList<i8, 30>),
    Chars(InlineList<Char, 30>),
    Shorts(InlineList<i16, 15>),
    Ints(InlineList<i32, 7>),
    Floats(InlineList<F32Bits, 7>),
    Doubles(InlineList<F64Bits, 3>),
    UBytes(InlineList<u8, 30>),
    UShorts(InlineList<u16, 15>),
    UInts(InlineList<u32, 7>),
    Int64s(InlineList<i64, 3>),
    UInt64s(InlineList<u64, 3>),
}

// A list that allocates has 24 bytes and says so in a byte, and its type is said in another.
const _: () = prove!(size_of::<Values>() == 40);

impl Values {
    ghost use Rattle.ncc_values.specs.XType.{size_of};
    ghost use Rattle.ncc_values.specs.Values.{type_of, count_of, bytes_of, no_values, values_of, with_bytes};

    /// No values of the type. They will be kept in memory of the allocator.
    pub fn new(alloc: Global, xtype: XType) -> Values
        ensures { result ≡ no_values xtype }
    {
        match xtype {
            XType::Byte => Values::Bytes(InlineList::new(alloc)),
            XType::Char => Values::Chars(InlineList::new(alloc)),
            XType::Short => Values::Shorts(InlineList::new(alloc)),
            XType::Int => Values::Ints(InlineList::new(alloc)),
            XType::Float => Values::Floats(InlineList::new(alloc)),
            XType::Double => Values::Doubles(InlineList::new(alloc)),
            XType::UByte => Values::UBytes(InlineList::new(alloc)),
            XType::UShort => Values::UShorts(InlineList::new(alloc)),
            XType::UInt => Values::UInts(InlineList::new(alloc)),
            XType::Int64 => Values::Int64s(InlineList::new(alloc)),
            XType::UInt64 => Values::UInt64s(InlineList::new(alloc)),
        }
    }

    /// The values of the type that the bytes spell. They take no memory of the allocator where they are few.
    pub fn of_bytes(alloc: Global, xtype: XType, bytes: &[u8]) -> Result<Values, AllocError>
        requires { length bytes.now % size_of xtype ≡ 0 }
        ensures { IfOk result (λ values. values ≡ values_of xtype bytes.now) }
    {
        Ok(match xtype {
            XType::Byte => Values::Bytes(InlineList::of_bytes(alloc, bytes)?),
            XType::Char => Values::Chars(InlineList::of_bytes(alloc, bytes)?),
            XType::Short => Values::Shorts(InlineList::of_bytes(alloc, bytes)?),
            XType::Int => Values::Ints(InlineList::of_bytes(alloc, bytes)?),
            XType::Float => Values::Floats(InlineList::of_bytes(alloc, bytes)?),
            XType::Double => Values::Doubles(InlineList::of_bytes(alloc, bytes)?),
            XType::UByte => Values::UBytes(InlineList::of_bytes(alloc, bytes)?),
            XType::UShort => Values::UShorts(InlineList::of_bytes(alloc, bytes)?),
            XType::UInt => Values::UInts(InlineList::of_bytes(alloc, bytes)?),
            XType::Int64 => Values::Int64s(InlineList::of_bytes(alloc, bytes)?),
            XType::UInt64 => Values::UInt64s(InlineList::of_bytes(alloc, bytes)?),
        })
    }

    /// How many values there are.
    pub fn len(&self) -> usize
        ensures { result ≡ count_of self.now }
    {
        match self {
            Values::Bytes(items) => items.len(),
            Values::Chars(items) => items.len(),
            Values::Shorts(items) => items.len(),
            Values::Ints(items) => items.len(),
            Values::Floats(items) => items.len(),
            Values::Doubles(items) => items.len(),
            Values::UBytes(items) => items.len(),
            Values::UShorts(items) => items.len(),
            Values::UInts(items) => items.len(),
            Values::Int64s(items) => items.len(),
            Values::UInt64s(items) => items.len(),
        }
    }

    pub fn is_empty(&self) -> bool
        ensures { IsTrue result ↔ (count_of self.now ≡ 0) }
    {
        self.len() == 0
    }

    /// The type of the values.
    pub fn xtype(&self) -> XType
        ensures { result ≡ type_of self.now }
    {
        match self {
            Values::Bytes(_) => XType::Byte,
            Values::Chars(_) => XType::Char,
            Values::Shorts(_) => XType::Short,
            Values::Ints(_) => XType::Int,
            Values::Floats(_) => XType::Float,
            Values::Doubles(_) => XType::Double,
            Values::UBytes(_) => XType::UByte,
            Values::UShorts(_) => XType::UShort,
            Values::UInts(_) => XType::UInt,
            Values::Int64s(_) => XType::Int64,
            Values::UInt64s(_) => XType::UInt64,
        }
    }

    /// Adds the values that the bytes spell. After an error the values are as they were.
    pub fn push_from(&mut self, bytes: &[u8]) -> Result<(), AllocError>
        requires { length bytes.now % size_of (type_of self.old) ≡ 0 }
        ensures ok { OnOk result (self.new ≡ with_bytes self.old bytes.now) }
        ensures err { OnErr result (self.new ≡ self.old) }
        ensures none { bytes.now ≡ [] → IsOk result }
    {
        match self {
            Values::Bytes(items) => items.push_from(bytes),
            Values::Chars(items) => items.push_from(bytes),
            Values::Shorts(items) => items.push_from(bytes),
            Values::Ints(items) => items.push_from(bytes),
            Values::Floats(items) => items.push_from(bytes),
            Values::Doubles(items) => items.push_from(bytes),
            Values::UBytes(items) => items.push_from(bytes),
            Values::UShorts(items) => items.push_from(bytes),
            Values::UInts(items) => items.push_from(bytes),
            Values::Int64s(items) => items.push_from(bytes),
            Values::UInt64s(items) => items.push_from(bytes),
        }
    }

    /// Writes the bytes of the values from `first` on, as many as `out` has room for.
    pub fn put_from(&self, first: usize, out: &mut [u8])
        requires whole { length out.old % size_of (type_of self.now) ≡ 0 }
        requires there { first + length out.old / size_of (type_of self.now) ≤ count_of self.now }
        ensures { out.new ≡ take (length out.old) (drop (first * size_of (type_of self.now)) (bytes_of self.now)) }
    {
        match self {
            Values::Bytes(items) => items.put_from(first, out),
            Values::Chars(items) => items.put_from(first, out),
            Values::Shorts(items) => items.put_from(first, out),
            Values::Ints(items) => items.put_from(first, out),
            Values::Floats(items) => items.put_from(first, out),
            Values::Doubles(items) => items.put_from(first, out),
            Values::UBytes(items) => items.put_from(first, out),
            Values::UShorts(items) => items.put_from(first, out),
            Values::UInts(items) => items.put_from(first, out),
            Values::Int64s(items) => items.put_from(first, out),
            Values::UInt64s(items) => items.put_from(first, out),
        }
    }
}
