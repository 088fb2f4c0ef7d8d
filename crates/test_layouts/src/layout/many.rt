//! Two thousand variables in descending order.

use ncc_layout::{LayoutFault, LayoutFaultKind, PlaceError, placed, sizes};
use ncc_schema::{Count, Header, Schema, Var, VarPlace, legal};
use ncc_values::{Name, Seq, Version, XType};
use std::alloc::{AllocError, Global};
use std::test::*;

/// Scalar bytes, each before the one before it in the header, but the twin at the place of that.
fn scalars(alloc: Global, count: u16, twin: Option<u16>) -> Result<Header, AllocError> {
    let mut vars = Vec::new(alloc);
    let mut places = Vec::new(alloc);
    for number in 0..count {
        let before = (count - number) as u64;
        let begin = if twin == Some(number) { 101 } else { 100 };
        vars.push(scalar(alloc))?;
        places.push(VarPlace {
            vsize: 4,
            begin: begin + before,
            begin_at: number as u64,
        })?;
    }
    Ok(header_with(alloc, Seq::from_vec(vars), Seq::from_vec(places)))
}

fn scalar(alloc: Global) -> Var {
    Var {
        name: Name::new(alloc),
        dims: Seq::new(alloc),
        attrs: Seq::new(alloc),
        xtype: XType::Byte,
    }
}

fn header_with(alloc: Global, vars: Seq<Var>, places: Seq<VarPlace>) -> Header {
    Header {
        schema: Schema {
            version: Version::V1,
            count: Count::Known(0),
            dims: Seq::new(alloc),
            gatts: Seq::new(alloc),
            vars,
        },
        places,
        length: 100,
        marks: Seq::new(alloc),
    }
}

/// The number of records in a file of this length with this header, or the fault.
fn judged(alloc: Global, header: &Header, length: u64) -> Result<u64, PlaceError> {
    if !legal(&header.schema, header.places.as_slice()) {
        return Err(PlaceError::Memory);
    }
    match sizes(alloc, &header.schema) {
        Ok(sizes) => Ok(placed(alloc, header, &sizes, length)?.records()),
        Err(_) => Err(PlaceError::Memory),
    }
}

/// What is said of so many scalar bytes in descending order.
pub fn said_of_scalars(alloc: Global, count: u16, twin: Option<u16>) -> Result<u64, PlaceError> {
    let header = scalars(alloc, count, twin)?;
    judged(alloc, &header, count as u64 + 102)
}

#[test]
fn many_variables(rt: HostRuntime) {
    assert!(rt; said_of_scalars(rt.alloc(), 2_000, None) == Ok(0));
    let fault = LayoutFault {
        kind: LayoutFaultKind::Overlap,
        offset: 1_000,
    };
    assert!(rt; said_of_scalars(rt.alloc(), 2_000, Some(1_000)) == Err(PlaceError::Fault(fault)));
}
