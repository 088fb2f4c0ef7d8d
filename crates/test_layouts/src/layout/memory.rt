//! Layout where memory may be refused. The test itself takes none: scripts/refuse_test_memory.sh
//! refuses one allocation after another.

use super::many::said_of_scalars;
use super::schemas::one;
use ncc_layout::{PlaceError, PlanFault, standard};
use ncc_schema::{Count, Schema, VarPlace, sound};
use ncc_values::{Version, XType};
use std::alloc::Global;
use std::test::*;

#[test]
fn places_without_memory(rt: HostRuntime) {
    match said_of_scalars(rt.alloc(), 2, None) {
        Ok(records) => assert!(rt; records == 0),
        Err(error) => assert!(rt; error == PlaceError::Memory),
    }
}

/// The place of the last variable.
fn last_place(alloc: Global, schema: &Schema) -> Result<VarPlace, PlanFault> {
    let Count::Known(_) = schema.count else {
        return Err(PlanFault::Memory);
    };
    if !sound(schema) {
        return Err(PlanFault::Memory);
    }
    let places = standard(alloc, schema)?;
    places.last().copied().ok_or(PlanFault::Memory)
}

fn last_begin(alloc: Global) -> Result<VarPlace, PlanFault> {
    last_place(alloc, &one(alloc, Version::V1, &[3], XType::Short)?)
}

#[test]
fn plans_without_memory(rt: HostRuntime) {
    match last_begin(rt.alloc()) {
        Ok(place) => assert!(rt; place.begin == 80),
        Err(error) => assert!(rt; error == PlanFault::Memory),
    }
}
