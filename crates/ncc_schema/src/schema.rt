//! What a header says.

use ncc_values::{Name, Seq, Values, Version, XType};

/// How many records a file has.
#[derive(Clone, Copy, Debug, PartialEq, Eq)]
pub enum Count {
    Known(u64),
    /// All bits of the count are one: the file is still written, and its length tells the count.
    Streaming,
}

/// A dimension. Its length is 0 where it is the record dimension.
#[derive(Debug, Drop, PartialEq, Eq)]
pub struct Dim {
    pub name: Name,
    pub length: u64,
}

/// An attribute, of a variable or of the whole file.
#[derive(Debug, Drop, PartialEq, Eq)]
pub struct Attr {
    pub name: Name,
    pub values: Values,
}

/// A variable over dimensions, each given by its number.
#[derive(Debug, Drop, PartialEq, Eq)]
pub struct Var {
    pub name: Name,
    pub dims: Seq<usize>,
    pub attrs: Seq<Attr>,
    pub xtype: XType,
}

/// All that a header says but for the places of its variables.
#[derive(Debug, Drop, PartialEq, Eq)]
pub struct Schema {
    pub version: Version,
    pub count: Count,
    pub dims: Seq<Dim>,
    pub gatts: Seq<Attr>,
    pub vars: Seq<Var>,
}

/// What a header says of a variable's place.
#[derive(Clone, Copy, Debug, PartialEq, Eq)]
pub struct VarPlace {
    /// What its header says of the variable's size in bytes.
    pub vsize: u64,
    /// The offset in bytes of the variable's first byte.
    pub begin: u64,
    /// The offset in bytes of the field that holds `begin`.
    pub begin_at: u64,
}

/// Where a header differs from its canonical spelling, by an offset in bytes.
#[derive(Clone, Copy, Debug, PartialEq, Eq)]
pub enum Mark {
    /// A padding with a byte that isn't zero.
    Padding(u64),
    /// A list without items whose tag isn't zero.
    TaggedEmpty(u64),
}

/// A header that was read, and its length in bytes.
#[derive(Debug, Drop, PartialEq, Eq)]
pub struct Header {
    pub schema: Schema,
    /// One for each variable, in their order.
    pub places: Seq<VarPlace>,
    pub length: u64,
    /// In the order of their offsets.
    pub marks: Seq<Mark>,
}
