//! Where a decoder stands in a header: the field that comes next, and what the fields before it gave.

ghost use Rattle.std.specs.Prelude.{◌≡◌, length};
ghost use Rattle.ncc_values.specs.Values.{type_of, bytes_of, values_of};

use crate::rules::attr::no_body;
use ncc_schema::{Attr, Count, Dim, Var, VarPlace};
use ncc_values::{Name, Values, Version, XType};
use std::alloc::Global;

/// What attributes belong to.
#[derive(Clone, Copy, Debug, PartialEq, Eq)]
pub enum Owner {
    File,
    Variable,
}

/// What a name is of.
#[derive(Clone, Copy, Debug, PartialEq, Eq)]
pub enum Named {
    Dim,
    Attr(Owner),
    Var,
}

/// The field that comes next.
#[derive(Clone, Copy, Debug, PartialEq, Eq)]
pub enum Next {
    Magic,
    VersionByte,
    NumRecs,
    DimsTag,
    /// After this tag.
    DimsCount(u64),
    NameLength(Named),
    /// A name of so many bytes.
    NameText(Named, u64),
    NamePadding(Named),
    DimLength,
    AttrsTag(Owner),
    AttrsCount(Owner, u64),
    AttrType(Owner),
    AttrCount(Owner, XType),
    /// So many values.
    AttrValues(Owner, u64),
    /// After values of so many bytes.
    AttrPadding(Owner, u64),
    VarsTag,
    VarsCount(u64),
    DimIdsCount,
    /// A dimension's number, and so many follow it.
    DimId(u64),
    VarType,
    Vsize(XType),
    /// After this size.
    VarBegin(XType, u64),
    /// No field is left.
    Whole,
}

/// What the header says before its variables.
#[derive(Debug, Drop)]
pub struct Parts {
    pub version: Version,
    pub count: Count,
    pub dims: Vec<Dim>,
    pub gatts: Vec<Attr>,
}

/// The whole variables, and their places; one has begun, and so many follow it.
#[derive(Debug, Drop)]
pub struct Vars {
    pub vars: Vec<Var>,
    pub places: Vec<VarPlace>,
    pub left: u64,
    ghost paired: { length vars.items ≡ length places.items },
}

/// The variable that has begun.
#[derive(Debug, Drop)]
pub struct Begun {
    pub name: Name,
    pub dims: Vec<usize>,
}

/// The lists so far. Of dimensions and of attributes one has begun, and so many follow it.
#[derive(Debug, Drop)]
pub struct Lists {
    pub parts: Parts,
    pub dims_left: u64,
    /// Of the list of attributes that has begun.
    pub attrs: Vec<Attr>,
    pub attrs_left: u64,
    pub var: Begun,
    pub vars: Vars,
}

/// The values that have come of the attribute that has begun.
#[derive(Debug, Drop)]
pub struct Body {
    pub values: Values,
    ghost from_bytes: { values_of (type_of values) (bytes_of values) ≡ values },
}

/// What the fields so far gave.
#[derive(Debug, Drop)]
pub struct Partial {
    pub lists: Lists,
    /// The bytes that have come of the name that has begun, or was the last that came field by field.
    pub name: Name,
    pub body: Body,
}

impl Partial {
    /// Nothing yet, whatever stands there: the first fields give the version and the count.
    pub fn new(alloc: Global) -> Partial {
        let lists = Lists {
            parts: Parts {
                version: Version::V1,
                count: Count::Streaming,
                dims: Vec::new(alloc),
                gatts: Vec::new(alloc),
            },
            dims_left: 0,
            attrs: Vec::new(alloc),
            attrs_left: 0,
            var: Begun {
                name: Name::new(alloc),
                dims: Vec::new(alloc),
            },
            vars: Vars {
                vars: Vec::new(alloc),
                places: Vec::new(alloc),
                left: 0,
            },
        };
        Partial {
            lists,
            name: Name::new(alloc),
            body: no_body(alloc, XType::Byte),
        }
    }
}
