//! Files with values.

use crate::maker::{Maker, push_numbered};
use crate::random::{Prose, Random, push_doubles, push_floats, push_random};
use ncc_values::Version;
use std::alloc::{AllocError, Global};

/// The variable `field` of the type with this code over three dimensions of these lengths; its values come next.
fn field_header(alloc: Global, code: u32, lengths: [u64; 3]) -> Result<(Vec<u8>, u64), AllocError> {
    let mut maker = Maker::new(alloc, Version::V2, 0)?;
    maker.dims(3)?;
    maker.dim(b"time", lengths[0])?;
    maker.dim(b"lat", lengths[1])?;
    maker.dim(b"lon", lengths[2])?;
    maker.attrs(0)?;
    maker.vars(1)?;
    maker.begin_var(b"field", &[0, 1, 2])?;
    maker.attrs(1)?;
    maker.attr(b"units", 2, b"kelvin")?;
    maker.end_var(code, &[0, 1, 2])?;
    Ok(maker.finish(false))
}

/// A fixed field of shorts, floats or doubles.
pub fn field(
    alloc: Global,
    random: &mut Random,
    code: u32,
    lengths: [u64; 3],
) -> Result<Vec<u8>, AllocError> {
    let (mut bytes, length) = field_header(alloc, code, lengths)?;
    let end = length as usize;
    let left = if bytes.len() < end {
        end - bytes.len()
    } else {
        0
    };
    bytes.reserve(left)?;
    match code {
        5 => push_floats(&mut bytes, random, left)?,
        6 => push_doubles(&mut bytes, random, left)?,
        _ => push_random(&mut bytes, random, left)?,
    }
    bytes.resize(end, 0)?;
    Ok(bytes)
}

/// So many records of 30 floats over no other dimension, and of one variable of `width` floats.
pub fn stations(
    alloc: Global,
    random: &mut Random,
    version: Version,
    records: u64,
    width: u64,
) -> Result<Vec<u8>, AllocError> {
    let mut maker = Maker::new(alloc, version, records)?;
    maker.dims(2)?;
    maker.dim(b"time", 0)?;
    maker.dim(b"level", width)?;
    maker.attrs(0)?;
    maker.vars(31)?;
    let mut name = Vec::new(alloc);
    for number in 0..30 {
        name.clear();
        push_numbered(&mut name, b"sensor_", number)?;
        maker.begin_var(&name, &[0])?;
        maker.attrs(0)?;
        maker.end_var(5, &[0])?;
    }
    maker.begin_var(b"profile", &[0, 1])?;
    maker.attrs(0)?;
    maker.end_var(5, &[0, 1])?;
    let (mut bytes, length) = maker.finish(false);
    let end = length as usize;
    let left = if bytes.len() < end {
        end - bytes.len()
    } else {
        0
    };
    bytes.reserve(left)?;
    push_floats(&mut bytes, random, left)?;
    bytes.resize(end, 0)?;
    Ok(bytes)
}

/// The names of so many stations, 32 characters each.
pub fn labels(
    alloc: Global,
    random: &mut Random,
    prose: &Prose,
    count: u64,
) -> Result<Vec<u8>, AllocError> {
    let mut maker = Maker::new(alloc, Version::V1, 0)?;
    maker.dims(2)?;
    maker.dim(b"station", count)?;
    maker.dim(b"characters", 32)?;
    maker.attrs(0)?;
    maker.vars(1)?;
    maker.begin_var(b"label", &[0, 1])?;
    maker.attrs(0)?;
    maker.end_var(2, &[0, 1])?;
    let (mut bytes, _) = maker.finish(false);
    for _ in 0..count {
        let shown = 8 + random.below(24);
        bytes.extend_from_slice(prose.piece(random, shown))?;
        for _ in shown..32 {
            bytes.push(0)?;
        }
    }
    Ok(bytes)
}
