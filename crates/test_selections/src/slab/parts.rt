//! Parts of a selection, and the calls of the store that read them.

use super::files::{File, bytes_of, calls_of, counted, open_file};
use super::helpers::{Pick, add_next, parts_of, read_next, read_with_calls, slab};
use ncc_slab::{Slab, SlabFault, SlabParts, SlabReader};
use ncc_store::MemStore;
use ncc_values::Values;
use std::alloc::Global;
use std::test::*;

const DOUBLES: File = File {
    records: 0,
    lengths: &[10_000],
    vars: &[(&[0], 6, 0)],
    data: &[],
    places: 80_000,
};

const INTS: File = File {
    records: 0,
    lengths: &[100_000],
    vars: &[(&[0], 4, 0)],
    data: &[],
    places: 400_000,
};

const HUNDRED: File = File {
    records: 0,
    lengths: &[100],
    vars: &[(&[0], 4, 0)],
    data: &[],
    places: 400,
};

/// The variable short m(y, x) of lengths 200 and 400.
const WIDE: File = File {
    records: 0,
    lengths: &[200, 400],
    vars: &[(&[0, 1], 3, 0)],
    data: &[],
    places: 160_000,
};

/// A selection, how many values each of the first nine parts has, and the calls of the store that each of the first
/// eight takes.
type Row = (&'static File, Pick, [usize; 9], [u64; 8]);

const PARTS: [Row; 2] = [
    (
        &DOUBLES,
        [&[0], &[10_000], &[1]],
        [8_192, 1_808, 0, 0, 0, 0, 0, 0, 0],
        [1, 1, 0, 0, 0, 0, 0, 0],
    ),
    (
        &INTS,
        [&[0], &[100_000], &[1]],
        [16_384, 16_384, 16_384, 16_384, 16_384, 16_384, 1_696, 0, 0],
        [1, 1, 1, 1, 1, 1, 1, 0],
    ),
];

/// How many values each of the first nine parts has.
fn lengths_in(alloc: Global, reader: &mut SlabReader<MemStore>) -> Result<[usize; 9], SlabFault> {
    let mut values = Values::new(alloc, reader.xtype());
    let mut lengths = [0; 9];
    for k in 0..9 {
        lengths[k] = read_next(reader, &mut values)?;
    }
    Ok(lengths)
}

/// The same by a reader of a file.
fn part_lengths(alloc: Global, file: &File, slab: &Slab) -> Result<[usize; 9], SlabFault> {
    let mut file = open_file(alloc, file)?;
    let mut reader = SlabReader::new(alloc, &mut file, 0, slab)?;
    lengths_in(alloc, &mut reader)
}

/// The calls of the store that the next part takes.
fn next_calls(
    alloc: Global,
    file: &File,
    parts: &mut SlabParts,
    values: &mut Values,
) -> Result<u64, SlabFault> {
    let mut file = counted(alloc, bytes_of(alloc, file)?)?;
    add_next(parts, &mut file, values)?;
    Ok(calls_of(file))
}

/// The calls of the store that each of the first eight parts takes.
fn part_calls(alloc: Global, file: &File, slab: &Slab) -> Result<[u64; 8], SlabFault> {
    let mut parts = parts_of(alloc, file, slab)?;
    let mut values = Values::new(alloc, parts.xtype());
    let mut calls = [0; 8];
    for k in 0..8 {
        calls[k] = next_calls(alloc, file, &mut parts, &mut values)?;
    }
    Ok(calls)
}

/// Whether the parts have these lengths and take these calls.
fn has_parts(alloc: Global, row: Row) -> Result<bool, SlabFault> {
    let (file, pick, lengths, calls) = row;
    let slab = slab(alloc, pick)?;
    Ok(part_lengths(alloc, file, &slab)? == lengths && part_calls(alloc, file, &slab)? == calls)
}

#[test]
fn parts_of_a_line(rt: HostRuntime) {
    for (number, row) in PARTS.iter().enumerate() {
        assert!(rt; has_parts(rt.alloc(), *row) == Ok(true), "row {number}");
    }
}

/// The calls of the store that a refused reader takes.
fn refused_calls(alloc: Global) -> Result<u64, SlabFault> {
    let mut file = counted(alloc, bytes_of(alloc, &HUNDRED)?)?;
    let slab = slab(alloc, [&[100], &[1], &[1]])?;
    let refused = SlabReader::new(alloc, &mut file, 0, &slab).is_err();
    if !refused {
        return Err(SlabFault::NoVariable);
    }
    Ok(calls_of(file))
}

#[test]
fn refused_reader_makes_no_call(rt: HostRuntime) {
    assert!(rt; refused_calls(rt.alloc()) == Ok(0));
}

/// Selections, and the calls of the store by which all values are read.
const CALLS: [(&'static File, Pick, u64); 7] = [
    (&INTS, [&[0], &[100_000], &[1]], 7),
    // By the stride.
    (&HUNDRED, [&[3], &[40], &[2]], 40),
    (&HUNDRED, [&[3], &[40], &[1]], 1),
    (&HUNDRED, [&[3], &[0], &[1]], 0),
    // The whole: 80,000 values in parts of 32,768.
    (&WIDE, [&[0, 0], &[200, 400], &[1, 1]], 3),
    // 100 rows that lie apart: the first part ends inside the 82nd, which takes two calls.
    (&WIDE, [&[0, 0], &[100, 400], &[2, 1]], 101),
    // Of 190 rows all but the last value: two of them are cut where a part ends.
    (&WIDE, [&[1, 0], &[190, 399], &[1, 1]], 192),
];

/// The calls of the store by which all values are read.
fn all_calls(alloc: Global, file: &File, pick: Pick) -> Option<u64> {
    match read_with_calls(alloc, file, 0, pick) {
        Ok((_, calls)) => Some(calls),
        Err(_) => None,
    }
}

#[test]
fn calls_of_whole_selections(rt: HostRuntime) {
    for (number, (file, pick, calls)) in CALLS.iter().enumerate() {
        assert!(rt;
            all_calls(rt.alloc(), file, *pick) == Some(*calls),
            "row {number}"
        );
    }
}
