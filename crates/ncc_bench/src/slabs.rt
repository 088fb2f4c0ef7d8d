//! Selections as values, without rows.

use crate::archive::LIMIT;
use crate::digest::Digest;
use crate::fields::{field, stations};
use crate::random::Random;
use anyhow::Result;
use ncc_check::{NcFile, Refusal, open};
use ncc_slab::{Slab, SlabFault, SlabReader, read_slab};
use ncc_store::MemStore;
use ncc_values::{Seq, Values, Version};
use std::alloc::{AllocError, Global};

/// Digests values.
fn take(values: &Values, digest: &mut Digest) {
    digest.number(values.len() as u64);
    match values {
        Values::Shorts(items) => {
            for item in items.as_slice() {
                digest.number(item.cast_unsigned() as u64);
            }
        }
        Values::Floats(items) => {
            for item in items.as_slice() {
                digest.number(item.0 as u64);
            }
        }
        Values::Doubles(items) => {
            for item in items.as_slice() {
                digest.number(item.0);
            }
        }
        _ => {}
    }
}

/// The number of a refusal.
fn number_of(fault: SlabFault) -> u64 {
    match fault {
        SlabFault::NoVariable => 1,
        SlabFault::RankMismatch => 2,
        SlabFault::ZeroStride(dim) => (dim as u64).wrapping_mul(8).wrapping_add(3),
        SlabFault::Outside(dim) => (dim as u64).wrapping_mul(8).wrapping_add(4),
        SlabFault::Device => 5,
        SlabFault::Memory => 6,
    }
}

fn list(alloc: Global, numbers: &[u64]) -> Result<Seq<u64>, AllocError> {
    Ok(Seq::from_vec(numbers.to_vec(alloc)?))
}

/// A selection.
fn slab(alloc: Global, start: &[u64], count: &[u64], stride: &[u64]) -> Result<Slab, AllocError> {
    Ok(Slab {
        start: list(alloc, start)?,
        count: list(alloc, count)?,
        stride: list(alloc, stride)?,
    })
}

/// Reads a selection at once.
fn read(alloc: Global, file: &mut NcFile<MemStore>, var: usize, slab: &Slab, digest: &mut Digest) {
    match read_slab(alloc, file, var, slab) {
        Ok(values) => take(&values, digest),
        Err(fault) => digest.number(number_of(fault)),
    }
}

/// Reads the next part of a selection, and tells how many values it has.
fn read_part(
    alloc: Global,
    reader: &mut SlabReader<MemStore>,
    digest: &mut Digest,
) -> Result<usize, SlabFault> {
    let mut values = Values::new(alloc, reader.xtype());
    let count = reader.next_part(&mut values)?;
    take(&values, digest);
    Ok(count)
}

/// Reads a selection of the first variable part by part.
fn read_parts(
    alloc: Global,
    file: &mut NcFile<MemStore>,
    slab: &Slab,
    digest: &mut Digest,
) -> Result<(), SlabFault> {
    let mut reader = SlabReader::new(alloc, file, 0, slab)?;
    for _ in 0..1_000 {
        if read_part(alloc, &mut reader, digest)? == 0 {
            break;
        }
    }
    Ok(())
}

/// Every second point.
fn every_second(
    alloc: Global,
    file: &mut NcFile<MemStore>,
    digest: &mut Digest,
) -> Result<(), AllocError> {
    let slab = slab(alloc, &[0, 0, 0], &[300, 60, 25], &[1, 1, 2])?;
    read(alloc, file, 0, &slab, digest);
    Ok(())
}

/// Every third index of each dimension.
fn each_third(
    alloc: Global,
    file: &mut NcFile<MemStore>,
    digest: &mut Digest,
) -> Result<(), SlabFault> {
    let slab = slab(alloc, &[0, 0, 1], &[100, 20, 16], &[3, 3, 3])?;
    read_parts(alloc, file, &slab, digest)
}

/// A box.
fn inside(
    alloc: Global,
    file: &mut NcFile<MemStore>,
    digest: &mut Digest,
) -> Result<(), SlabFault> {
    let slab = slab(alloc, &[0, 3, 10], &[300, 50, 20], &[1, 1, 1])?;
    read_parts(alloc, file, &slab, digest)
}

/// One latitude, and points over all times.
fn over_all_times(
    alloc: Global,
    random: &mut Random,
    file: &mut NcFile<MemStore>,
    digest: &mut Digest,
) -> Result<(), AllocError> {
    let latitude = slab(alloc, &[0, 7, 0], &[300, 1, 50], &[1, 1, 1])?;
    read(alloc, file, 0, &latitude, digest);
    for point in 0..60 {
        let start = [0, point, random.next() % 50];
        let times = slab(alloc, &start, &[300, 1, 1], &[1, 1, 1])?;
        read(alloc, file, 0, &times, digest);
    }
    Ok(())
}

/// A file, opened.
fn opened(alloc: Global, bytes: Vec<u8>) -> Result<NcFile<MemStore>, Refusal> {
    open(alloc, MemStore::new(bytes), LIMIT).map_err(|(_, refusal)| refusal)
}

/// Selections of a field of this type.
fn fixed(alloc: Global, random: &mut Random, code: u32, digest: &mut Digest) -> Result<()> {
    let mut file = opened(alloc, field(alloc, random, code, [300, 60, 50])?)?;
    every_second(alloc, &mut file, digest)?;
    each_third(alloc, &mut file, digest)?;
    inside(alloc, &mut file, digest)?;
    over_all_times(alloc, random, &mut file, digest)?;
    Ok(())
}

/// Selections of record variables: 30 columns, and every second level of every second record.
fn records(alloc: Global, random: &mut Random, digest: &mut Digest) -> Result<()> {
    let mut file = opened(alloc, stations(alloc, random, Version::V5, 4_000, 80)?)?;
    let column = slab(alloc, &[0], &[4_000], &[1])?;
    for var in 0..30 {
        read(alloc, &mut file, var, &column, digest);
    }
    let profile = slab(alloc, &[1, 0], &[1_999, 40], &[2, 2])?;
    read(alloc, &mut file, 30, &profile, digest);
    Ok(())
}

/// So many rounds, each of other files.
pub fn slabs(alloc: Global, count: u64, random: &mut Random, digest: &mut Digest) -> Result<()> {
    for _ in 0..count {
        fixed(alloc, random, 5, digest)?;
        fixed(alloc, random, 3, digest)?;
        fixed(alloc, random, 6, digest)?;
        records(alloc, random, digest)?;
    }
    Ok(())
}
