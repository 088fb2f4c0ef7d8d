//! An archive of middling files: each is checked and listed.

use crate::digest::Digest;
use crate::maker::{Maker, push_numbered};
use crate::random::{Prose, Random};
use anyhow::Result;
use ncc_engines::{check_engine, list_store_engine};
use ncc_header::WriteSink;
use ncc_lines::FloatStyle;
use ncc_store::{LongStore, Store};
use ncc_values::Version;
use std::alloc::{AllocError, Global};

/// The longest header that is read.
pub const LIMIT: u64 = 67_108_864;

const GLOBALS: [&[u8]; 12] = [
    b"title",
    b"institution",
    b"source",
    b"history",
    b"references",
    b"comment",
    b"Conventions",
    b"creation_date",
    b"frequency",
    b"tracking_id",
    b"experiment_id",
    b"license",
];

const TEXTS: [&[u8]; 8] = [
    b"long_name",
    b"standard_name",
    b"units",
    b"cell_methods",
    b"coordinates",
    b"cell_measures",
    b"comment",
    b"original_name",
];

const NUMBERS: [&[u8]; 4] = [b"_FillValue", b"missing_value", b"valid_min", b"valid_max"];

/// The dimensions of variables by their rank.
const SHAPES: [&[u64]; 5] = [&[], &[0], &[2, 3], &[0, 2, 3], &[0, 1, 2, 3]];

fn push_globals(maker: &mut Maker, random: &mut Random, prose: &Prose) -> Result<(), AllocError> {
    maker.attrs(12)?;
    for name in GLOBALS {
        let count = 8 + random.below(160);
        let count = if name.len() == 7 { count * 16 } else { count };
        maker.attr(name, 2, prose.piece(random, count))?;
    }
    Ok(())
}

fn push_attrs(
    maker: &mut Maker,
    random: &mut Random,
    prose: &Prose,
    texts: usize,
) -> Result<(), AllocError> {
    for name in &TEXTS[..texts.min(8)] {
        let count = 1 + random.below(60);
        maker.attr(name, 2, prose.piece(random, count))?;
    }
    for name in NUMBERS {
        maker.attr(
            name,
            5,
            &((random.next() & 0x7F7F_FFFF) as u32).to_be_bytes(),
        )?;
    }
    Ok(())
}

fn push_var(
    maker: &mut Maker,
    random: &mut Random,
    prose: &Prose,
    name: &[u8],
) -> Result<(), AllocError> {
    let shape = SHAPES[random.below(5)];
    let texts = 2 + random.below(7);
    maker.begin_var(name, shape)?;
    maker.attrs(texts as u64 + 4)?;
    push_attrs(maker, random, prose, texts)?;
    maker.end_var(5, shape)
}

fn push_vars(
    alloc: Global,
    maker: &mut Maker,
    random: &mut Random,
    prose: &Prose,
) -> Result<(), AllocError> {
    let vars = 8 + random.below(43) as u64;
    maker.vars(vars)?;
    let mut name = Vec::new(alloc);
    for number in 0..vars {
        name.clear();
        name.extend_from_slice(prose.piece(random, 0))?;
        push_numbered(&mut name, b"air_temperature_", number)?;
        push_var(maker, random, prose, &name)?;
    }
    Ok(())
}

fn push_dims(maker: &mut Maker, random: &mut Random) -> Result<(), AllocError> {
    maker.dims(5)?;
    maker.dim(b"time", 0)?;
    maker.dim(b"level", 1 + random.below(40) as u64)?;
    maker.dim(b"latitude", 1 + random.below(180) as u64)?;
    maker.dim(b"longitude", 1 + random.below(360) as u64)?;
    maker.dim(b"bounds", 2)
}

/// The header of a file of an archive, and the file's length.
pub fn archive_file(
    alloc: Global,
    random: &mut Random,
    prose: &Prose,
    version: Version,
) -> Result<(Vec<u8>, u64), AllocError> {
    let mut maker = Maker::new(alloc, version, 1 + random.below(1000) as u64)?;
    push_dims(&mut maker, random)?;
    push_globals(&mut maker, random, prose)?;
    push_vars(alloc, &mut maker, random, prose)?;
    Ok(maker.finish(false))
}

/// What `check` and `list` say of a store.
pub fn look<S: Store>(
    alloc: Global,
    store: &mut S,
    style: FloatStyle,
    text: Vec<u8>,
    digest: &mut Digest,
) -> Vec<u8> {
    let mut sink = WriteSink::new(text);
    digest.answer(check_engine(alloc, store, LIMIT, false, &mut sink));
    digest.answer(list_store_engine(alloc, store, LIMIT, style, &mut sink));
    let mut text = sink.into_inner();
    digest.bytes(&text);
    text.clear();
    text
}

/// The version that a number chooses.
pub fn version_at(number: u64) -> Version {
    match number % 3 {
        0 => Version::V1,
        1 => Version::V2,
        _ => Version::V5,
    }
}

/// A store of these bytes, with zeros after them up to its length.
pub fn stored(bytes: Vec<u8>, length: u64) -> LongStore {
    let size = length.max(bytes.len() as u64);
    LongStore::new(bytes, size)
}

/// Checks and lists so many files.
pub fn archive(alloc: Global, count: u64, random: &mut Random, digest: &mut Digest) -> Result<()> {
    let prose = Prose::new(alloc, random)?;
    let mut text = Vec::new(alloc);
    for number in 0..count {
        let (bytes, length) = archive_file(alloc, random, &prose, version_at(number))?;
        let mut store = stored(bytes, length);
        text = look(alloc, &mut store, FloatStyle::Bits, text, digest);
    }
    Ok(())
}
