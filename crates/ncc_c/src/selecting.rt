//! A variable and a selection by the caller's numbers.

ghost use Rattle.std.specs.Prelude.{◌≡◌, IfOk, MatchOption};
ghost use Rattle.ncc_values.specs.XType.{code_of, type_of_code};
ghost use Rattle.ncc_values.specs.declared.version.Version.TheVariants.{V5};
ghost use Rattle.ncc_c.specs.Selecting.{NoTypeOf, VarAs, slab_by};

use crate::rows::VarRow;
use ncc_layout::{Extent, PlacedVar};
use ncc_ranges::RangeFault;
use ncc_slab::Slab;
use ncc_values::{Seq, Version, XType};
use std::alloc::{AllocError, Global};

/// The type with this code, in any version.
pub fn type_at(code: u64) -> Option<XType>
    ensures { result ≡ type_of_code V5 code }
{
    if code > 11 {
        return None;
    }
    XType::from_code(code as u32, Version::V5)
}

/// The type with this code.
fn xtype_of(code: u64) -> Option<XType>
    ensures { MatchOption result (NoTypeOf code) (λ t. code_of t ≡ code) }
{
    type_at(code)
}

/// The same numbers, in memory of their own.
fn copied(alloc: Global, numbers: &[u64]) -> Result<Seq<u64>, AllocError>
    ensures { IfOk result (λ x. x ≡ numbers.now) }
{
    let mut copy = Vec::new(alloc);
    copy.extend_from_slice(numbers)?;
    Ok(Seq::from_vec(copy))
}

/// The variable with this row and these lengths, where there is one.
pub fn var_of(alloc: Global, row: &VarRow, shape: &[u64]) -> Result<PlacedVar, RangeFault>
    ensures { VarAs row.now shape.now result }
{
    if row.rank != shape.len() as u64 || row.is_record > 1 {
        return Err(RangeFault::NotInFile);
    }
    let Some(xtype) = xtype_of(row.xtype) else {
        return Err(RangeFault::NotInFile);
    };
    Ok(PlacedVar {
        xtype,
        shape: copied(alloc, shape)?,
        extent: Extent {
            begin: row.begin,
            slab: row.slab,
            variable: 0,
            is_record: row.is_record == 1,
        },
    })
}

/// The selection of these numbers.
pub fn slab_of(
    alloc: Global,
    start: &[u64],
    count: &[u64],
    stride: &[u64],
) -> Result<Slab, AllocError>
    ensures { IfOk result (λ x. x ≡ slab_by start.now count.now stride.now) }
{
    let start = copied(alloc, start)?;
    let count = copied(alloc, count)?;
    let stride = copied(alloc, stride)?;
    Ok(Slab {
        start,
        count,
        stride,
    })
}
