//! Files that a model writes: a schema with attributes, values in pieces of all sizes, fill values, more records.

ghost use Rattle.std.specs.Prelude.{◌<◌};

use crate::archive::LIMIT;
use crate::digest::Digest;
use crate::maker::push_numbered;
use crate::random::{Prose, Random};
use anyhow::Result;
use ncc_engines::extend_engine;
use ncc_schema::{Sink, WriteSink};
use ncc_store::MemStore;
use ncc_values::{F32Bits, InlineList, Values, Version, XType};
use ncc_write::{Built, FileWriter, SchemaBuilder, WriteFault};
use std::alloc::Global;

/// A text as values.
fn text(alloc: Global, bytes: &[u8]) -> Result<Values, WriteFault> {
    Ok(Values::of_bytes(alloc, XType::Char, bytes)?)
}

/// Adds an attribute of a variable that is there.
fn note(
    schema: &mut SchemaBuilder,
    var: usize,
    name: &[u8],
    values: Values,
) -> Result<(), WriteFault> {
    if var < schema.schema().vars.len() {
        schema.attr(var, name, values)?;
    }
    Ok(())
}

/// Adds a variable, and attributes of texts and numbers to it.
fn describe(
    alloc: Global,
    schema: &mut SchemaBuilder,
    random: &mut Random,
    prose: &Prose,
    name: &[u8],
    dims: &[usize],
) -> Result<(), WriteFault> {
    let var = schema.var(name, XType::Float, dims)?;
    let mut name = Vec::new(alloc);
    for attr in 0..10 {
        name.clear();
        push_numbered(&mut name, b"attribute_", attr)?;
        let count = 1 + random.below(60);
        note(schema, var, &name, text(alloc, prose.piece(random, count))?)?;
    }
    let least = Values::Floats(InlineList::from_slice(alloc, &[F32Bits(0x42C8_0000)])?);
    note(schema, var, b"valid_min", least)
}

/// Adds three dimensions, an attribute, and so many variables: half of them fixed ones of 1,200 floats, the others
/// record variables of 1 and of 40 floats.
fn add_items(
    alloc: Global,
    schema: &mut SchemaBuilder,
    random: &mut Random,
    prose: &Prose,
    vars: u64,
) -> Result<(), WriteFault> {
    let time = schema.dim(b"time", 0)?;
    let level = schema.dim(b"level", 40)?;
    let column = schema.dim(b"column", 30)?;
    schema.global(b"history", text(alloc, prose.piece(random, 2_000))?)?;
    let mut name = Vec::new(alloc);
    for number in 0..vars {
        name.clear();
        push_numbered(&mut name, b"variable_", number)?;
        match number % 4 {
            0 => describe(alloc, schema, random, prose, &name, &[time])?,
            1 => describe(alloc, schema, random, prose, &name, &[time, level])?,
            _ => describe(alloc, schema, random, prose, &name, &[level, column])?,
        }
    }
    Ok(())
}

fn built(
    alloc: Global,
    random: &mut Random,
    prose: &Prose,
    vars: u64,
    records: u64,
) -> Result<Built, WriteFault> {
    let mut schema = SchemaBuilder::new(alloc, Version::V2);
    add_items(alloc, &mut schema, random, prose, vars)?;
    schema.build(records).map_err(|(_, fault)| fault)
}

/// Puts up to 400 of the next values of a slab, by their bytes or as values.
fn put_some<W: Sink>(
    alloc: Global,
    random: &mut Random,
    prose: &Prose,
    writer: &mut FileWriter<W>,
    left: usize,
) -> Result<(), WriteFault>
    requires { 0 < left }
{
    let count = 1 + random.below(left.min(400));
    let piece = prose.piece(random, 1600);
    let size = (count * 4).min(piece.len() / 4 * 4);
    if random.below(2) == 0 {
        return writer.put_bytes(XType::Float, &piece[..size]);
    }
    writer.put(&Values::of_bytes(alloc, XType::Float, &piece[..size])?)
}

/// Puts so many pieces of values.
fn put_all<W: Sink>(
    alloc: Global,
    random: &mut Random,
    prose: &Prose,
    writer: &mut FileWriter<W>,
    pieces: u64,
) -> Result<(), WriteFault> {
    for _ in 0..pieces {
        match writer.expects() {
            Some((_, _, left)) if left > 0 => {
                put_some(alloc, random, prose, writer, left as usize)?;
            }
            _ => return Ok(()),
        }
    }
    Ok(())
}

/// A writer of a file of this schema.
fn begin(
    alloc: Global,
    built: Built,
    room: Vec<u8>,
) -> Result<FileWriter<WriteSink<Vec<u8>>>, WriteFault> {
    FileWriter::start(alloc, built, WriteSink::new(room)).map_err(|(_, fault)| fault)
}

/// The bytes of a file, whose later values are fill values.
fn end(writer: FileWriter<WriteSink<Vec<u8>>>) -> Result<Vec<u8>, WriteFault> {
    let mut writer = writer;
    writer.fill_rest()?;
    match writer.finish() {
        Ok(sink) => Ok(sink.into_inner()),
        Err((_, fault)) => Err(fault),
    }
}

/// A file of so many variables and records, of which the later values are fill values.
fn write(
    alloc: Global,
    random: &mut Random,
    prose: &Prose,
    vars: u64,
    records: u64,
    room: Vec<u8>,
) -> Result<Vec<u8>, WriteFault> {
    let built = built(alloc, random, prose, vars, records)?;
    let mut writer = begin(alloc, built, room)?;
    put_all(alloc, random, prose, &mut writer, vars.saturating_mul(20))?;
    end(writer)
}

/// Adds records of fill values to a file.
fn extend(alloc: Global, bytes: Vec<u8>, more: u64, digest: &mut Digest) -> Vec<u8> {
    let mut sink = WriteSink::new(Vec::new(alloc));
    let store = MemStore::new(bytes);
    let (store, answer) = extend_engine(alloc, store, LIMIT, more, &mut sink);
    digest.answer(answer);
    digest.bytes(&sink.into_inner());
    store.into_bytes()
}

/// So many rounds, each of other files.
pub fn writing(alloc: Global, count: u64, random: &mut Random, digest: &mut Digest) -> Result<()> {
    let prose = Prose::new(alloc, random)?;
    let mut room = Vec::new(alloc);
    for _ in 0..count {
        for vars in [40, 80, 400] {
            let bytes = write(alloc, random, &prose, vars, 400, room)?;
            digest.bytes(&bytes);
            room = extend(alloc, bytes, 40, digest);
            digest.bytes(&room);
            room.clear();
        }
    }
    Ok(())
}
