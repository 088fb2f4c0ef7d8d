//! Schemas in tables.

use ncc_values::{Version, XType};
use ncc_write::{Built, SchemaBuilder, WriteFault};
use std::alloc::Global;

/// Dimensions by name and length, variables by name, type and dimensions, and a number of records.
#[derive(Clone, Copy)]
pub struct Plan {
    pub version: Version,
    pub dims: &'static [(u8, u64)],
    pub vars: &'static [(u8, XType, &'static [usize])],
    pub records: u64,
}

/// Nothing at all.
pub const NOTHING: Plan = Plan {
    version: Version::V1,
    dims: &[],
    vars: &[],
    records: 0,
};

/// The variable short v(x), with x of length 3.
pub const SHORTS: Plan = Plan {
    version: Version::V1,
    dims: &[(b'x', 3)],
    vars: &[(b'v', XType::Short, &[0])],
    records: 0,
};

/// The shorts in CDF-2, and in CDF-5.
pub const SHORTS_IN_CDF_2: Plan = Plan {
    version: Version::V2,
    dims: &[(b'x', 3)],
    vars: &[(b'v', XType::Short, &[0])],
    records: 0,
};

pub const SHORTS_IN_CDF_5: Plan = Plan {
    version: Version::V5,
    dims: &[(b'x', 3)],
    vars: &[(b'v', XType::Short, &[0])],
    records: 0,
};

/// The variable short v(t), of 3 records.
pub const RECORDS_OF_ONE: Plan = Plan {
    version: Version::V1,
    dims: &[(b't', 0)],
    vars: &[(b'v', XType::Short, &[0])],
    records: 3,
};

/// The variables byte a(t) and short b(t), of 2 records.
pub const RECORDS_OF_TWO: Plan = Plan {
    version: Version::V1,
    dims: &[(b't', 0)],
    vars: &[(b'a', XType::Byte, &[0]), (b'b', XType::Short, &[0])],
    records: 2,
};

/// The variable ubyte v(x), with x of length 3.
pub const UBYTES: Plan = Plan {
    version: Version::V5,
    dims: &[(b'x', 3)],
    vars: &[(b'v', XType::UByte, &[0])],
    records: 0,
};

/// The variable byte v(x), whose file has 65,536 bytes.
pub const PAGE: Plan = Plan {
    version: Version::V1,
    dims: &[(b'x', 65_456)],
    vars: &[(b'v', XType::Byte, &[0])],
    records: 0,
};

/// The variable short v(t), of 100,000 records.
pub const MANY_RECORDS: Plan = Plan {
    version: Version::V1,
    dims: &[(b't', 0)],
    vars: &[(b'v', XType::Short, &[0])],
    records: 100_000,
};

/// The variable int v(x), with x of length 100,000.
pub const LONG: Plan = Plan {
    version: Version::V1,
    dims: &[(b'x', 100_000)],
    vars: &[(b'v', XType::Int, &[0])],
    records: 0,
};

fn add_dims(builder: &mut SchemaBuilder, dims: &[(u8, u64)]) -> Result<(), WriteFault> {
    for (name, length) in dims {
        builder.dim(&[*name], *length)?;
    }
    Ok(())
}

fn add_vars(
    builder: &mut SchemaBuilder,
    vars: &[(u8, XType, &'static [usize])],
) -> Result<(), WriteFault> {
    for (name, xtype, dims) in vars {
        builder.var(&[*name], *xtype, *dims)?;
    }
    Ok(())
}

pub fn add_all(builder: &mut SchemaBuilder, plan: &Plan) -> Result<(), WriteFault> {
    add_dims(builder, plan.dims)?;
    add_vars(builder, plan.vars)
}

/// What is built of a builder, or why nothing is.
pub fn built_by(builder: SchemaBuilder, records: u64) -> Result<Built, WriteFault> {
    match builder.build(records) {
        Ok(built) => Ok(built),
        Err((_, fault)) => Err(fault),
    }
}

/// The plan's schema, or why there is none.
pub fn built(alloc: Global, plan: &Plan) -> Result<Built, WriteFault> {
    let mut builder = SchemaBuilder::new(alloc, plan.version);
    let added = add_all(&mut builder, plan);
    if let Err(fault) = added {
        return Err(fault);
    }
    built_by(builder, plan.records)
}
