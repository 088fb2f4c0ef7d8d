//! Awkward headers: each is checked and listed, cut and checked, and fed to a decoder in small pieces.

use crate::archive::{LIMIT, archive_file, look, stored, version_at};
use crate::digest::Digest;
use crate::maker::{Maker, push_numbered};
use crate::random::{Prose, Random};
use anyhow::Result;
use ncc_engines::check_engine;
use ncc_header::{Decoder, Fed, Header, HeaderError, WriteSink};
use ncc_lines::FloatStyle;
use ncc_store::MemStore;
use ncc_values::Version;
use std::alloc::{AllocError, Global};

/// So many variables of a float each, one of eight with attributes, in the order of their begins or against it.
fn many_vars(
    alloc: Global,
    random: &mut Random,
    vars: u64,
    descending: bool,
) -> Result<(Vec<u8>, u64), AllocError> {
    let mut maker = Maker::new(alloc, Version::V2, 0)?;
    maker.dims(2)?;
    maker.dim(b"x", 2)?;
    maker.dim(b"y", 3)?;
    maker.attrs(0)?;
    maker.vars(vars)?;
    let mut name = Vec::new(alloc);
    for number in 0..vars {
        name.clear();
        push_numbered(&mut name, b"station_", number)?;
        push_numbered(&mut name, b"_", random.next() % 1000)?;
        maker.begin_var(&name, &[0, 1])?;
        if number % 8 == 0 {
            maker.attrs(1)?;
            maker.attr(b"units", 2, b"kelvin")?;
        } else {
            maker.attrs(0)?;
        }
        maker.end_var(5, &[0, 1])?;
    }
    Ok(maker.finish(descending))
}

/// So many dimensions.
fn many_dims(alloc: Global, random: &mut Random, dims: u64) -> Result<(Vec<u8>, u64), AllocError> {
    let mut maker = Maker::new(alloc, Version::V1, 0)?;
    maker.dims(dims)?;
    let mut name = Vec::new(alloc);
    for number in 0..dims {
        name.clear();
        push_numbered(&mut name, b"dimension_", number)?;
        maker.dim(&name, 1 + random.below(1000) as u64)?;
    }
    maker.attrs(0)?;
    maker.vars(0)?;
    Ok(maker.finish(false))
}

/// So many global attributes of the type with this code, each with so many bytes of prose, at most 65,535.
fn many_attrs(
    alloc: Global,
    random: &mut Random,
    prose: &Prose,
    attrs: u64,
    code: u32,
    size: usize,
) -> Result<(Vec<u8>, u64), AllocError> {
    let mut maker = Maker::new(alloc, Version::V5, 0)?;
    maker.dims(0)?;
    maker.attrs(attrs)?;
    let mut name = Vec::new(alloc);
    for number in 0..attrs {
        name.clear();
        push_numbered(&mut name, b"key_", number)?;
        maker.attr(&name, code, prose.piece(random, size))?;
    }
    maker.vars(0)?;
    Ok(maker.finish(false))
}

/// Variables whose names and texts are past ASCII, each with attributes whose names end alike.
fn foreign(
    alloc: Global,
    random: &mut Random,
    prose: &Prose,
    vars: u64,
) -> Result<(Vec<u8>, u64), AllocError> {
    let mut maker = Maker::new(alloc, Version::V1, 0)?;
    maker.dims(1)?;
    maker.dim("hauteur_géopotentielle".as_bytes(), 4)?;
    maker.attrs(1)?;
    maker.attr("évaluation".as_bytes(), 2, prose.piece(random, 40))?;
    maker.vars(vars)?;
    let mut name = Vec::new(alloc);
    for number in 0..vars {
        name.clear();
        push_numbered(&mut name, "température_à_".as_bytes(), number)?;
        maker.begin_var(&name, &[0])?;
        maker.attrs(16)?;
        for attr in 0..16u64 {
            name.clear();
            push_numbered(&mut name, "größe_".as_bytes(), attr)?;
            name.extend_from_slice(b"_of_the_mean")?;
            maker.attr(&name, 2, prose.piece(random, 12))?;
        }
        maker.end_var(5, &[0])?;
    }
    Ok(maker.finish(false))
}

/// Digests why there is no header.
fn refused(error: HeaderError, digest: &mut Digest) {
    match error {
        HeaderError::Fault(fault) => {
            digest.number(fault.kind as u64);
            digest.number(fault.offset);
        }
        HeaderError::Device => digest.number(1),
        HeaderError::Memory => digest.number(2),
    }
}

/// Digests the names and places of a header.
fn take(header: &Header, digest: &mut Digest) {
    digest.number(header.length);
    for dim in header.schema.dims.as_slice() {
        digest.bytes(dim.name.as_slice());
        digest.number(dim.length);
    }
    for attr in header.schema.gatts.as_slice() {
        digest.bytes(attr.name.as_slice());
        digest.number(attr.values.len() as u64);
    }
    for var in header.schema.vars.as_slice() {
        digest.bytes(var.name.as_slice());
        digest.number(var.dims.len() as u64);
        digest.number(var.attrs.len() as u64);
    }
    for place in header.places.as_slice() {
        digest.number(place.vsize);
        digest.number(place.begin);
        digest.number(place.begin_at);
    }
}

/// Feeds a header by pieces of 1 to 9 bytes.
fn feed(alloc: Global, random: &mut Random, bytes: &[u8], digest: &mut Digest) {
    let mut decoder = Decoder::new(alloc, LIMIT);
    let mut rest = bytes;
    for _ in 0..bytes.len() {
        if rest.is_empty() {
            break;
        }
        let count = (1 + random.below(9)).min(rest.len());
        let (piece, after) = rest.split_at(count);
        match decoder.feed(piece) {
            Ok(Fed::More) => digest.number(decoder.wants()),
            Ok(Fed::Done(used)) => digest.number(used as u64),
            Err(error) => refused(error, digest),
        }
        rest = after;
    }
    match decoder.finish() {
        Ok(header) => take(&header, digest),
        Err(error) => refused(error, digest),
    }
}

/// Checks what is left of a header once its end is cut off.
fn check_cut(alloc: Global, random: &mut Random, bytes: Vec<u8>, digest: &mut Digest) {
    let mut bytes = bytes;
    let cut = 1 + random.below(20);
    if cut < bytes.len() {
        bytes.truncate(bytes.len() - cut);
    }
    let mut sink = WriteSink::new(Vec::new(alloc));
    let mut store = MemStore::new(bytes);
    digest.answer(check_engine(alloc, &mut store, LIMIT, true, &mut sink));
    digest.bytes(&sink.into_inner());
}

/// Checks and lists a file.
fn show(alloc: Global, file: (Vec<u8>, u64), digest: &mut Digest) {
    let (bytes, length) = file;
    let mut store = stored(bytes, length);
    let _text = look(
        alloc,
        &mut store,
        FloatStyle::Decimal,
        Vec::new(alloc),
        digest,
    );
}

/// Headers of an archive, fed in pieces, and cut.
fn pieces(
    alloc: Global,
    random: &mut Random,
    prose: &Prose,
    files: u64,
    digest: &mut Digest,
) -> Result<(), AllocError> {
    for number in 0..files {
        let (bytes, _) = archive_file(alloc, random, prose, version_at(number))?;
        feed(alloc, random, &bytes, digest);
        check_cut(alloc, random, bytes, digest);
    }
    Ok(())
}

/// One round of headers of all shapes.
fn round(alloc: Global, random: &mut Random, prose: &Prose, digest: &mut Digest) -> Result<()> {
    show(alloc, many_vars(alloc, random, 20_000, false)?, digest);
    show(alloc, many_vars(alloc, random, 20_000, true)?, digest);
    show(alloc, many_dims(alloc, random, 10_000)?, digest);
    show(
        alloc,
        many_attrs(alloc, random, prose, 20_000, 2, 8)?,
        digest,
    );
    show(
        alloc,
        many_attrs(alloc, random, prose, 1_000, 4, 4_000)?,
        digest,
    );
    show(alloc, foreign(alloc, random, prose, 1_000)?, digest);
    pieces(alloc, random, prose, 20, digest)?;
    Ok(())
}

/// So many rounds.
pub fn headers(alloc: Global, count: u64, random: &mut Random, digest: &mut Digest) -> Result<()> {
    let prose = Prose::new(alloc, random)?;
    for _ in 0..count {
        round(alloc, random, &prose, digest)?;
    }
    Ok(())
}
