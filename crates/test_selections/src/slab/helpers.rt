//! Selections of a table's files.

use super::files::{File, bytes_of, calls_of, counted, open_file};
use ncc_check::NcFile;
use ncc_slab::{Slab, SlabFault, SlabParts, SlabReader, read_slab};
use ncc_store::Store;
use ncc_values::{Seq, Values};
use std::alloc::{AllocError, Global};

/// The starts, the counts and the strides of a selection.
pub type Pick = [&'static [u64]; 3];

fn seq(alloc: Global, numbers: &[u64]) -> Result<Seq<u64>, AllocError> {
    Ok(Seq::from_vec(numbers.to_vec(alloc)?))
}

/// The selection with these starts, counts and strides.
pub fn slab(alloc: Global, pick: [&[u64]; 3]) -> Result<Slab, AllocError> {
    let [start, count, stride] = pick;
    Ok(Slab {
        start: seq(alloc, start)?,
        count: seq(alloc, count)?,
        stride: seq(alloc, stride)?,
    })
}

/// The values of a selection of the file of these bytes, and the calls of the store that read them.
fn with_calls(
    alloc: Global,
    bytes: Vec<u8>,
    var: usize,
    slab: &Slab,
) -> Result<(Values, u64), SlabFault> {
    let mut file = counted(alloc, bytes)?;
    let values = read_slab(alloc, &mut file, var, slab)?;
    Ok((values, calls_of(file)))
}

/// The same of a table's file.
pub fn read_with_calls(
    alloc: Global,
    file: &File,
    var: usize,
    pick: Pick,
) -> Result<(Values, u64), SlabFault> {
    let slab = slab(alloc, pick)?;
    with_calls(alloc, bytes_of(alloc, file)?, var, &slab)
}

/// The parts of a selection of a file's first variable.
pub fn parts_of(alloc: Global, file: &File, slab: &Slab) -> Result<SlabParts, SlabFault> {
    let file = open_file(alloc, file)?;
    SlabParts::new(alloc, file.placed(), 0, slab)
}

/// Adds the next part. The values are of the type of the parts, and the file is no shorter than theirs.
pub fn add_next<S: Store>(
    parts: &mut SlabParts,
    file: &mut NcFile<S>,
    values: &mut Values,
) -> Result<usize, SlabFault> {
    if values.xtype() != parts.xtype() || file.placed().file_length() < parts.file_length() {
        return Err(SlabFault::NoVariable);
    }
    parts.next_part(file, values)
}

/// The next part as a reader gives it. The values are of its type.
pub fn read_next<S: Store>(
    reader: &mut SlabReader<S>,
    values: &mut Values,
) -> Result<usize, SlabFault> {
    if values.xtype() != reader.xtype() {
        return Err(SlabFault::NoVariable);
    }
    reader.next_part(values)
}
