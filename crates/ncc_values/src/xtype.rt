//! The external types.

ghost use Rattle.std.specs.Prelude.{◌≡◌};

use crate::version::Version;

/// An external type: what the values of a variable or an attribute are in a file.
#[derive(Clone, Copy, Debug, PartialEq, Eq)]
pub enum XType {
    Byte,
    Char,
    Short,
    Int,
    Float,
    Double,
    UByte,
    UShort,
    UInt,
    Int64,
    UInt64,
}

impl XType {
    ghost use Rattle.ncc_values.specs.XType.{code_of, size_of, word_of, type_of_code};

    /// The type with this code, if the version has it: the last five are of CDF-5 alone.
    pub fn from_code(code: u32, version: Version) -> Option<XType>
        ensures { result ≡ type_of_code version code }
    {
        let late = version == Version::V5;
        match code {
            1 => Some(XType::Byte),
            2 => Some(XType::Char),
            3 => Some(XType::Short),
            4 => Some(XType::Int),
            5 => Some(XType::Float),
            6 => Some(XType::Double),
            7 if late => Some(XType::UByte),
            8 if late => Some(XType::UShort),
            9 if late => Some(XType::UInt),
            10 if late => Some(XType::Int64),
            11 if late => Some(XType::UInt64),
            _ => None,
        }
    }

    /// The number that names the type in a file.
    pub fn code(self) -> u32
        ensures { result ≡ code_of self }
    {
        match self {
            XType::Byte => 1,
            XType::Char => 2,
            XType::Short => 3,
            XType::Int => 4,
            XType::Float => 5,
            XType::Double => 6,
            XType::UByte => 7,
            XType::UShort => 8,
            XType::UInt => 9,
            XType::Int64 => 10,
            XType::UInt64 => 11,
        }
    }

    /// The bytes of one element.
    pub fn size(self) -> usize
        ensures { result ≡ size_of self }
    {
        match self {
            XType::Byte | XType::Char | XType::UByte => 1,
            XType::Short | XType::UShort => 2,
            XType::Int | XType::Float | XType::UInt => 4,
            XType::Double | XType::Int64 | XType::UInt64 => 8,
        }
    }

    /// The word that names the type in a text.
    pub fn word(self) -> &'static str
        ensures { result.now ≡ word_of self }
    {
        match self {
            XType::Byte => "byte",
            XType::Char => "char",
            XType::Short => "short",
            XType::Int => "int",
            XType::Float => "float",
            XType::Double => "double",
            XType::UByte => "ubyte",
            XType::UShort => "ushort",
            XType::UInt => "uint",
            XType::Int64 => "int64",
            XType::UInt64 => "uint64",
        }
    }
}
