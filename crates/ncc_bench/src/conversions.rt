//! Conversions: small records, records of mixed sizes, a large field, and headers of an archive's size.

use crate::archive::LIMIT;
use crate::digest::Digest;
use crate::fields::{field, stations};
use crate::maker::{Maker, push_numbered};
use crate::random::{Prose, Random};
use anyhow::Result;
use ncc_check::open;
use ncc_engines::{convert_engine, plan};
use ncc_header::WriteSink;
use ncc_lines::Unshown;
use ncc_store::{AheadStore, MemStore};
use ncc_values::Version;
use std::alloc::{AllocError, Global};

/// Converts a file, read by pages as the program does, and digests the new one.
fn convert(
    alloc: Global,
    bytes: Vec<u8>,
    version: Version,
    text: Vec<u8>,
    digest: &mut Digest,
) -> Result<Vec<u8>> {
    let store = AheadStore::new(alloc, MemStore::new(bytes))?;
    let mut file = open(alloc, store, LIMIT).map_err(|(_, refusal)| refusal)?;
    let mut sink = WriteSink::new(text);
    let built = match plan(alloc, &file, version, &mut sink) {
        Ok(built) => built,
        Err(answer) => {
            digest.answer(answer);
            return Ok(sink.into_inner());
        }
    };
    let (sink, answer) = convert_engine(alloc, &mut file, built, sink, &mut Unshown);
    digest.answer(answer);
    let mut text = sink.into_inner();
    digest.bytes(&text);
    text.clear();
    Ok(text)
}

/// A file of so many fixed variables of 10 bytes, each with 12 attributes.
fn described(
    alloc: Global,
    random: &mut Random,
    prose: &Prose,
    vars: u64,
) -> Result<Vec<u8>, AllocError> {
    let mut maker = Maker::new(alloc, Version::V1, 0)?;
    maker.dims(2)?;
    maker.dim(b"x", 5)?;
    maker.dim(b"y", 2)?;
    maker.attrs(0)?;
    maker.vars(vars)?;
    let mut name = Vec::new(alloc);
    for number in 0..vars {
        name.clear();
        push_numbered(&mut name, b"variable_", number)?;
        maker.begin_var(&name, &[0, 1])?;
        maker.attrs(12)?;
        for attr in 0..12 {
            name.clear();
            push_numbered(&mut name, b"attribute_", attr)?;
            let count = 1 + random.below(50);
            maker.attr(&name, 2, prose.piece(random, count))?;
        }
        maker.end_var(1, &[0, 1])?;
    }
    let (mut bytes, length) = maker.finish(false);
    bytes.resize(length as usize, 7)?;
    Ok(bytes)
}

/// So many rounds, each of other files.
pub fn conversions(
    alloc: Global,
    count: u64,
    random: &mut Random,
    digest: &mut Digest,
) -> Result<()> {
    let prose = Prose::new(alloc, random)?;
    let mut text = Vec::new(alloc);
    for _ in 0..count {
        let small = stations(alloc, random, Version::V1, 20_000, 1)?;
        text = convert(alloc, small, Version::V5, text, digest)?;
        let mixed = stations(alloc, random, Version::V2, 2_000, 700)?;
        text = convert(alloc, mixed, Version::V5, text, digest)?;
        let large = field(alloc, random, 5, [20, 300, 400])?;
        text = convert(alloc, large, Version::V1, text, digest)?;
        let header = described(alloc, random, &prose, 300)?;
        text = convert(alloc, header, Version::V5, text, digest)?;
    }
    Ok(())
}
