//! A grid of 2 by 3 with two records: how it is written, and how a row of it is read.

use crate::values::{ints, numbers, shorts, text};
use ncc::{
    Built, FileWriter, NcFile, SchemaBuilder, Sink, Slab, SlabFault, Store, Values, Version,
    WriteFault, XType, read_slab,
};
use std::alloc::Global;

/// The dimensions, the attributes and the variables. A length of 0 makes the record dimension.
fn describe(alloc: Global, schema: &mut SchemaBuilder) -> Result<(), WriteFault> {
    let time = schema.dim(b"time", 0)?;
    let y = schema.dim(b"y", 2)?;
    let x = schema.dim(b"x", 3)?;
    schema.global(b"title", text(alloc, b"a small grid")?)?;
    let height = schema.var(b"height", XType::Int, &[y, x])?;
    schema.attr(height, b"units", text(alloc, b"m")?)?;
    let temperature = schema.var(b"temperature", XType::Short, &[time, y, x])?;
    schema.attr(temperature, b"_FillValue", shorts(alloc, &[-999])?)
}

/// The schema, with two records.
fn built(alloc: Global, version: Version) -> Result<Built, WriteFault> {
    let mut schema = SchemaBuilder::new(alloc, version);
    describe(alloc, &mut schema)?;
    schema.build(2).map_err(|(_, fault)| fault)
}

/// All heights, the first two temperatures, and fill values for the others.
fn put<W: Sink>(alloc: Global, writer: &mut FileWriter<W>) -> Result<(), WriteFault> {
    writer.put(&ints(alloc, &[1, 2, 3, 4, 5, 6])?)?;
    writer.put(&shorts(alloc, &[201, 202])?)?;
    writer.fill_rest()
}

/// Writes the file into a sink.
pub fn write<W: Sink + Drop>(alloc: Global, version: Version, sink: W) -> Result<W, WriteFault> {
    let built = built(alloc, version)?;
    let mut writer = FileWriter::start(alloc, built, sink).map_err(|(_, fault)| fault)?;
    put(alloc, &mut writer)?;
    writer.finish().map_err(|(_, fault)| fault)
}

/// The first row of temperatures of the first record.
pub fn first_row<S: Store>(alloc: Global, file: &mut NcFile<S>) -> Result<Values, SlabFault> {
    let row = Slab {
        start: numbers(alloc, &[0, 0, 0])?,
        count: numbers(alloc, &[1, 1, 3])?,
        stride: numbers(alloc, &[1, 1, 1])?,
    };
    read_slab(alloc, file, 1, &row)
}
