//! Stores that fail, and what goes on over another file of the same bytes.

use super::files::{File, bytes_of, fused, open_file};
use super::helpers::{Pick, add_next, parts_of, read_with_calls, slab};
use ncc_check::NcFile;
use ncc_slab::{SlabFault, SlabParts};
use ncc_store::Store;
use ncc_values::Values;
use std::alloc::Global;
use std::test::*;

/// The variable int m(y, x) of lengths 2 and 10,001.
const TWO_PARTS: File = File {
    records: 0,
    lengths: &[2, 10_001],
    vars: &[(&[0, 1], 4, 0)],
    data: &[],
    places: 80_008,
};

const PICK: Pick = [&[0, 0], &[2, 10_000], &[1, 1]];

/// What is left of a selection, and the values that are there.
#[derive(Drop)]
struct Begun {
    parts: SlabParts,
    values: Values,
}

/// Adds the next part.
fn add<S: Store>(begun: &mut Begun, file: &mut NcFile<S>) -> Result<usize, SlabFault> {
    add_next(&mut begun.parts, file, &mut begun.values)
}

/// Adds parts until none is left or the store fails.
fn add_rest<S: Store>(begun: &mut Begun, file: &mut NcFile<S>) -> Option<SlabFault> {
    for _ in 0..3 {
        match add(begun, file) {
            Ok(_) => {}
            Err(fault) => return Some(fault),
        }
    }
    None
}

/// Are so many values there, and all others left?
fn has(begun: &Begun, there: usize) -> bool {
    begun.values.len() == there && begun.parts.left() == 20_000_u64.wrapping_sub(there as u64)
}

/// Whether the store fails when so many values are there, and fails again.
fn fails_at<S: Store>(begun: &mut Begun, file: &mut NcFile<S>, there: usize) -> bool {
    let first = add_rest(begun, file);
    let is_there = has(begun, there);
    let second = add(begun, file);
    first == Some(SlabFault::Device)
        && is_there
        && second == Err(SlabFault::Device)
        && has(begun, there)
}

/// Whether that holds over a store that fails after so many calls of reading.
fn stops(alloc: Global, begun: &mut Begun, calls: u64, there: usize) -> Result<bool, SlabFault> {
    let mut file = fused(alloc, bytes_of(alloc, &TWO_PARTS)?, calls)?;
    Ok(fails_at(begun, &mut file, there))
}

/// Whether the other values follow over another file.
fn goes_on(alloc: Global, begun: &mut Begun) -> Result<bool, SlabFault> {
    let mut file = open_file(alloc, &TWO_PARTS)?;
    Ok(add_rest(begun, &mut file) == None && has(begun, 20_000))
}

/// Whether the values are those that are read at once.
fn has_all(alloc: Global, begun: &Begun) -> Result<bool, SlabFault> {
    let (values, _) = read_with_calls(alloc, &TWO_PARTS, 0, PICK)?;
    Ok(values == begun.values)
}

fn begin(alloc: Global) -> Result<Begun, SlabFault> {
    let slab = slab(alloc, PICK)?;
    let parts = parts_of(alloc, &TWO_PARTS, &slab)?;
    let values = Values::new(alloc, parts.xtype());
    Ok(Begun { parts, values })
}

/// Whether all this holds of parts that nothing was read of.
fn all_hold(alloc: Global, begun: &mut Begun, calls: u64, there: usize) -> Result<bool, SlabFault> {
    Ok(stops(alloc, begun, calls, there)? && goes_on(alloc, begun)? && has_all(alloc, begun)?)
}

/// Whether all this holds of a store that fails after so many calls.
fn fails_after(alloc: Global, calls: u64, there: usize) -> Result<bool, SlabFault> {
    let mut begun = begin(alloc)?;
    all_hold(alloc, &mut begun, calls, there)
}

#[test]
fn each_call_in_turn(rt: HostRuntime) {
    // Of 16,384 values the first 10,000 are a stretch, and the others; the next 3,616 are one.
    for (calls, there) in [(0, 0), (1, 0), (2, 16_384)] {
        assert!(rt;
            fails_after(rt.alloc(), calls, there) == Ok(true),
            "after {calls}"
        );
    }
}
