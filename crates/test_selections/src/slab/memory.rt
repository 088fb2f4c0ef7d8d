//! Selections where memory may be refused. scripts/refuse_test_memory.sh refuses one allocation after another.

use super::files::{File, open_file};
use super::helpers::{read_next, slab};
use ncc_check::NcFile;
use ncc_slab::{Slab, SlabFault, SlabReader, read_slab, slab_of};
use ncc_store::MemStore;
use ncc_values::{InlineList, Values};
use std::alloc::{AllocError, Global};
use std::test::*;

/// The variable int m(y, x) of lengths 2 and 3, with the values 1 to 6.
const TABLE: File = File {
    records: 0,
    lengths: &[2, 3],
    vars: &[(&[0, 1], 4, 0)],
    data: &[
        0, 0, 0, 1, 0, 0, 0, 2, 0, 0, 0, 3, 0, 0, 0, 4, 0, 0, 0, 5, 0, 0, 0, 6,
    ],
    places: 0,
};

/// What is done with the last row of int m(y, x), of the values 4, 5 and 6.
#[derive(Clone, Copy)]
enum Case {
    Reads,
    Refuses,
    ReadsParts,
    Selects,
}

fn is_last(values: &Values) -> bool {
    match values {
        Values::Ints(items) => items.as_slice() == [4, 5, 6].as_slice(),
        _ => false,
    }
}

/// Whether the row is read, or memory was refused.
fn reads(alloc: Global, file: &mut NcFile<MemStore>, slab: &Slab) -> bool {
    match read_slab(alloc, file, 0, slab) {
        Ok(values) => is_last(&values),
        Err(fault) => fault == SlabFault::Memory,
    }
}

/// Whether there is no second variable.
fn refuses(alloc: Global, file: &mut NcFile<MemStore>, slab: &Slab) -> bool {
    match read_slab(alloc, file, 1, slab) {
        Ok(_) => false,
        Err(fault) => fault == SlabFault::NoVariable,
    }
}

/// Whether a part is the row, or memory was refused and no value is there.
fn reads_part(alloc: Global, reader: &mut SlabReader<MemStore>) -> bool {
    let mut values = Values::Ints(InlineList::new(alloc));
    match read_next(reader, &mut values) {
        Ok(count) => count == 3 && is_last(&values),
        Err(fault) => fault == SlabFault::Memory && values.is_empty(),
    }
}

/// Whether that holds of a reader, or memory was refused.
fn reads_parts(alloc: Global, file: &mut NcFile<MemStore>, slab: &Slab) -> bool {
    match SlabReader::new(alloc, file, 0, slab) {
        Ok(mut reader) => reads_part(alloc, &mut reader),
        Err(fault) => fault == SlabFault::Memory,
    }
}

/// Why there is no selection of a whole slab.
fn fault(alloc: Global, file: &NcFile<MemStore>, var: usize) -> Option<SlabFault> {
    match slab_of(alloc, file, var, 0) {
        Ok(_) => None,
        Err(fault) => Some(fault),
    }
}

/// Whether the first variable's slab is selected, or memory was refused, and there is no second variable.
fn selects(alloc: Global, file: &NcFile<MemStore>) -> bool {
    let first = fault(alloc, file, 0);
    (first == None || first == Some(SlabFault::Memory))
        && fault(alloc, file, 1) == Some(SlabFault::NoVariable)
}

fn is_done(alloc: Global, file: &mut NcFile<MemStore>, slab: &Slab, case: Case) -> bool {
    match case {
        Case::Reads => reads(alloc, file, slab),
        Case::Refuses => refuses(alloc, file, slab),
        Case::ReadsParts => reads_parts(alloc, file, slab),
        Case::Selects => selects(alloc, file),
    }
}

/// Whether that is done, where memory isn't refused before it.
fn does(alloc: Global, case: Case) -> Result<bool, AllocError> {
    let slab = slab(alloc, [&[1, 0], &[1, 3], &[1, 1]])?;
    let mut file = open_file(alloc, &TABLE)?;
    Ok(is_done(alloc, &mut file, &slab, case))
}

#[test]
fn reads_without_memory(rt: HostRuntime) {
    assert!(rt; does(rt.alloc(), Case::Reads).unwrap_or(true));
}

#[test]
fn refuses_without_memory(rt: HostRuntime) {
    assert!(rt; does(rt.alloc(), Case::Refuses).unwrap_or(true));
}

#[test]
fn reads_parts_without_memory(rt: HostRuntime) {
    assert!(rt; does(rt.alloc(), Case::ReadsParts).unwrap_or(true));
}

#[test]
fn selects_without_memory(rt: HostRuntime) {
    assert!(rt; does(rt.alloc(), Case::Selects).unwrap_or(true));
}
