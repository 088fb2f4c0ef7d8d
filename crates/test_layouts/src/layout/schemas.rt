//! Schemas of one variable, whose names all have one letter.

use ncc_schema::{Count, Dim, Schema, Var};
use ncc_values::{Name, Seq, Version, XType};
use std::alloc::{AllocError, Global};

fn letter(alloc: Global) -> Result<Name, AllocError> {
    Name::from_slice(alloc, b"v")
}

fn var(alloc: Global, ids: &[usize], xtype: XType) -> Result<Var, AllocError> {
    Ok(Var {
        name: letter(alloc)?,
        dims: Seq::from_vec(ids.to_vec(alloc)?),
        attrs: Seq::new(alloc),
        xtype,
    })
}

/// These variables over dimensions of these lengths.
fn schema(
    alloc: Global,
    version: Version,
    lengths: &[u64],
    vars: Vec<Var>,
) -> Result<Schema, AllocError> {
    let mut dims = Vec::new(alloc);
    for length in lengths {
        dims.push(Dim {
            name: letter(alloc)?,
            length: *length,
        })?;
    }
    Ok(Schema {
        version,
        count: Count::Known(0),
        dims: Seq::from_vec(dims),
        gatts: Seq::new(alloc),
        vars: Seq::from_vec(vars),
    })
}

/// One variable over all dimensions.
pub fn one(
    alloc: Global,
    version: Version,
    lengths: &[u64],
    xtype: XType,
) -> Result<Schema, AllocError> {
    let mut ids = Vec::new(alloc);
    for id in 0..lengths.len() {
        ids.push(id)?;
    }
    let mut vars = Vec::new(alloc);
    vars.push(var(alloc, &ids, xtype)?)?;
    schema(alloc, version, lengths, vars)
}
