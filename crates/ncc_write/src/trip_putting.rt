//! Putting all values of a dataset into a file in memory.

ghost use Rattle.std.specs.Prelude.{◌≡◌, ℕ, List, Option, false, length};
ghost use Rattle.ncc_build.specs.Builds.{schema_of};
ghost use Rattle.ncc_write.specs.Trips.{Awaits, PutsAll, PutsSlab, Stood, WritesAs};
ghost use Rattle.ncc_write.specs.Writer.{sink_in, Stands};
ghost use Rattle.ncc_write.specs.Writing.{WriterState};

use crate::laws::{complete_when_taken, taking_grows};
use crate::putting::are_bytes;
use crate::trip_fault::{TripFault, of_write};
use crate::writer::FileWriter;
use ncc_build::Built;
use ncc_schema::{Sink, WriteSink};
use std::alloc::Global;

/// Puts the slab that comes next, whose bytes stand first in these, and answers how many they are.
fn put_slab<W: Sink>(
    writer: &mut FileWriter<W>,
    var: usize,
    left: u64,
    bytes: &[u8],
) -> Result<usize, TripFault>
    requires stood { Stood (W.put (sink_in writer.old)) writer.old }
    requires awaits { Awaits (W.put (sink_in writer.old)) writer.old var left }
    ensures puts { (start : Option (List ℕ)) (w : WriterState) → Stands start (W.put (sink_in writer.old)) writer.old w
        → w.failed ≡ false → PutsSlab start (W.put (sink_in writer.new)) writer.new w bytes.now result }
{
    taking_grows();
    are_bytes(bytes);
    let xtype = writer.schema().vars.as_slice()[var].xtype;
    let size = xtype.size();
    if ((bytes.len() / size) as u64) < left {
        return Err(TripFault::WrongLength);
    }
    let count = left as usize * size;
    match writer.put_bytes(xtype, &bytes[..count]) {
        Ok(()) => Ok(count),
        Err(fault) => Err(of_write(fault)),
    }
}

/// Puts slab after slab, by their bytes one after another, until none is expected.
fn put_all<W: Sink>(writer: &mut FileWriter<W>, bytes: &[u8]) -> Result<(), TripFault>
    requires stood { Stood (W.put (sink_in writer.old)) writer.old }
    ensures puts { (start : Option (List ℕ)) (w : WriterState) → Stands start (W.put (sink_in writer.old)) writer.old w
        → w.failed ≡ false → PutsAll start (W.put (sink_in writer.new)) writer.new w bytes.now result }
{
    complete_when_taken();
    let mut rest = bytes;
    while let Some((var, _record, left)) = writer.expects() {
        let count = put_slab(writer, var, left, rest)?;
        let (_slab, after) = rest.split_at(count);
        rest = after;
    }
    if !rest.is_empty() {
        return Err(TripFault::WrongLength);
    }
    Ok(())
}

/// The file of these values.
pub(crate) fn written(alloc: Global, built: Built, bytes: &[u8]) -> Result<Vec<u8>, TripFault>
    ensures { WritesAs (λ v. v.items) (schema_of built) bytes.now result }
{
    let sink = WriteSink::new(Vec::new(alloc));
    let mut writer = match FileWriter::start(alloc, built, sink) {
        Ok(writer) => writer,
        Err((_, fault)) => return Err(of_write(fault)),
    };
    put_all(&mut writer, bytes)?;
    match writer.finish() {
        Ok(sink) => Ok(sink.into_inner()),
        Err((_, fault)) => Err(of_write(fault)),
    }
}
