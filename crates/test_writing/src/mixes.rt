//! Schemas of all types, ranks and kinds of variables, and the bytes of their values.

use crate::plans::built_by;
use ncc_values::{Version, XType};
use ncc_write::{Built, SchemaBuilder, WriteFault};
use std::alloc::{AllocError, Global};

/// The types, of which the first six are of each version.
pub const TYPES: [XType; 11] = [
    XType::Byte,
    XType::Char,
    XType::Short,
    XType::Int,
    XType::Float,
    XType::Double,
    XType::UByte,
    XType::UShort,
    XType::UInt,
    XType::Int64,
    XType::UInt64,
];

/// The lengths of the dimensions; the first is that of the records.
const LENGTHS: [u64; 5] = [3, 1, 3, 2, 5];

/// Which variables have records.
#[derive(Clone, Copy, PartialEq, Eq)]
pub enum Kind {
    Fixed,
    OneOfRecords,
    HalfOfRecords,
}

/// A variable of each type of the version, the first of rank `turn`, each other of one more, up to 4 and from 0 on.
#[derive(Clone, Copy)]
pub struct Mix {
    pub version: Version,
    pub turn: usize,
    pub kind: Kind,
}

impl Mix {
    pub fn variables(self) -> usize {
        if self.version == Version::V5 { 11 } else { 6 }
    }

    pub fn records(self) -> u64 {
        if self.kind == Kind::Fixed { 0 } else { 3 }
    }

    fn is_record(self, var: usize) -> bool {
        match self.kind {
            Kind::Fixed => false,
            Kind::OneOfRecords => var == self.turn,
            Kind::HalfOfRecords => var % 2 == 1,
        }
    }

    /// The numbers of the variable's dimensions. A record variable has one at least.
    pub fn dims(self, var: usize) -> &'static [usize] {
        let rank = var.wrapping_add(self.turn) % 5;
        if self.is_record(var) {
            return [0, 2, 4, 1].as_slice().split_at(rank.clamp(1, 4)).0;
        }
        [2, 4, 1, 3].as_slice().split_at(rank.min(4)).0
    }
}

fn add_dims(builder: &mut SchemaBuilder) -> Result<(), WriteFault> {
    builder.dim(b"t", 0)?;
    builder.dim(b"w", 1)?;
    builder.dim(b"x", 3)?;
    builder.dim(b"y", 2)?;
    builder.dim(b"z", 5)?;
    Ok(())
}

fn add_vars(builder: &mut SchemaBuilder, mix: Mix) -> Result<(), WriteFault> {
    for (var, xtype) in TYPES.iter().enumerate().take(mix.variables()) {
        builder.var(&[b'a'.wrapping_add(var as u8)], *xtype, mix.dims(var))?;
    }
    Ok(())
}

/// The schema, or why there is none.
pub fn mixed(alloc: Global, mix: Mix) -> Result<Built, WriteFault> {
    let mut builder = SchemaBuilder::new(alloc, mix.version);
    let dims = add_dims(&mut builder);
    let vars = add_vars(&mut builder, mix);
    let built = built_by(builder, mix.records());
    dims?;
    vars?;
    built
}

/// The lengths of dimensions by their numbers.
pub fn lengths(alloc: Global, dims: &[usize]) -> Result<Vec<u64>, AllocError> {
    let mut lengths = Vec::new(alloc);
    for dim in dims {
        lengths.push(LENGTHS.get(*dim).copied().unwrap_or(0))?;
    }
    Ok(lengths)
}

/// How many elements a variable over these dimensions has, in all records.
pub fn elements(dims: &[usize]) -> usize {
    let mut product = 1_u64;
    for dim in dims {
        product = product.wrapping_mul(LENGTHS.get(*dim).copied().unwrap_or(0));
    }
    product.min(1_000) as usize
}

/// So many bytes of a variable's values, from the byte with this number on: each tells its variable and its number.
pub fn bytes_from(
    alloc: Global,
    var: usize,
    first: usize,
    count: usize,
) -> Result<Vec<u8>, AllocError> {
    let mut bytes = Vec::new(alloc);
    for k in 0..count {
        let number = first.wrapping_add(k).wrapping_mul(7);
        bytes.push((number.wrapping_add(var.wrapping_mul(31)) % 251) as u8)?;
    }
    Ok(bytes)
}
