//! Writes values in the order in which they lie.

ghost use Rattle.std.specs.Prelude.{◌≡◌, ◌<◌, ◌≤◌, [], false};
ghost use Rattle.ncc_build.specs.Builds.{schema_of};
ghost use Rattle.ncc_write.specs.PagedSink.{waiting};
ghost use Rattle.ncc_write.specs.VarSlabs.{IsSlabOrder, var_slab_number, record_at};

use crate::laws::taking_all_completes;
use crate::paged_sink::PagedSink;
use crate::putting::{are_bytes, elements_in};
use crate::slab_order::SlabOrder;
use crate::starting::{Parts, prepared};
use crate::var_slab::VarSlab;
use ncc_build::laws::built_is_writable;
use ncc_build::{Built, WriteFault};
use ncc_schema::{Device, Schema, Sink, write_all};
use ncc_values::{Values, XType};
use std::alloc::Global;

/// A netCDF file that is being written. Its values are put slab by slab: the fixed variables as in the header, and
/// then record by record, in each the record variables as in the header. They go out through a buffer of 65,536
/// bytes and room for one more value, the last memory that is taken.
#[derive(Drop)]
pub struct FileWriter<W> {
    built: Built,
    slab_order: SlabOrder,
    /// The slab of the next value, and how many elements of it are left.
    slab: u64,
    left: u64,
    /// The number of that slab's `VarSlab`, and its record.
    number: usize,
    round: u64,
    failed: bool,
    paged_sink: PagedSink<W>,
    ghost planned: { IsSlabOrder (schema_of built) slab_order },
    ghost within: { slab ≤ slab_order.slabs },
    ghost number_is: { slab < slab_order.slabs → number ≡ var_slab_number slab_order slab },
    ghost round_is: { slab < slab_order.slabs → round ≡ record_at slab_order slab },
    ghost flushed: { slab ≡ slab_order.slabs → failed ≡ false → waiting paged_sink ≡ [] },
}

impl<W: Sink> FileWriter<W> {
    ghost use Rattle.std.specs.Prelude.{ℕ, ◌+◌, ◌*◌, ◌%◌, List, length, Option, None, IfOk, IfErr, IsOk, OnOk};
    ghost use Rattle.ncc_build.specs.declared.fault.WriteFault.TheVariants as faults;
    ghost use Rattle.ncc_build.specs.Fill.{fills};
    ghost use Rattle.ncc_values.specs.Failures.{Counts};
    ghost use Rattle.ncc_values.specs.Numbers.{IsBytes};
    ghost use Rattle.ncc_values.specs.Values.{count_of, type_of, values_of};
    ghost use Rattle.ncc_values.specs.XType.{size_of};
    ghost use Rattle.ncc_build.specs.File.{header_of, padding_bytes};
    ghost use Rattle.ncc_schema.specs.Device.{Puts};
    ghost use Rattle.ncc_write.specs.Laws.{IsCompleted};
    ghost use Rattle.ncc_write.specs.Positions.{slab_at};
    ghost use Rattle.ncc_write.specs.VarSlabs.{var_slab_at};
    ghost use Rattle.ncc_write.specs.Writer.{schema_in, sink_in, Stands, StandsOrStops, Ends, Gives};
    ghost use Rattle.ncc_write.specs.Writing.{WriterState, Went, next_of, starting, StartFails, expected, refuses_put, refuses_fill, refuses_finish, with_values, with_more, with_fills, IsAnswer, IsExactly, StandsAfter, CountsFailure};

    /// Puts out the header, and makes the buffer. After `Memory` nothing went out, after `Device` a beginning of the
    /// header.
    pub fn start(alloc: Global, built: Built, sink: W) -> Result<FileWriter<W>, (W, WriteFault)>
        ensures stands { IfOk result (λ x. Stands (W.put sink) (W.put (sink_in x)) x (starting (schema_of built))) }
        ensures header { IfOk result (λ x. Puts (W.put sink) (W.put (sink_in x)) (header_of (schema_of built))) }
        ensures count { IfOk result (λ x. W.failures (sink_in x) ≡ W.failures sink) }
        ensures untouched { IfErr result (λ e. e.1 ≡ faults.Memory → e.0 ≡ sink) }
        ensures refused { IfErr result (λ e. StartFails (W.put sink) (W.put e.0) (W.failures sink) (W.failures e.0)
            (header_of (schema_of built)) e.1) }
        ensures calls { IfOk result (λ x. W.calls (sink_in x) ≤ W.calls sink + length (header_of (schema_of built))) }
        ensures asked { IfErr result (λ e. W.calls e.0 ≤ W.calls sink + length (header_of (schema_of built))) }
    {
        built_is_writable(&built);
        let Parts {
            header,
            slab_order,
            buffer,
        } = match prepared(alloc, &built) {
            Ok(parts) => parts,
            Err(_) => return Err((sink, WriteFault::Memory)),
        };
        let mut sink = sink;
        if write_all(&mut sink, header.as_slice()).is_err() {
            return Err((sink, WriteFault::Device));
        }
        Ok(FileWriter {
            left: slab_order.first_elements(),
            slab_order,
            slab: 0,
            number: 0,
            round: 0,
            failed: false,
            paged_sink: PagedSink::over(sink, buffer, header.len() as u64),
            built,
        })
    }

    /// The schema of the file.
    pub fn schema(&self) -> &Schema
        ensures { result.now ≡ schema_in self.now }
    {
        self.built.schema()
    }

    /// What is put for the slab of the next value, and in which record.
    #[inline(always)]
    fn var_slab(&self) -> (VarSlab, u64)
        requires { self.now.slab < self.now.slab_order.slabs }
        ensures var_slab { result.0 ≡ var_slab_at self.now.slab_order self.now.slab }
        ensures record { result.1 ≡ record_at self.now.slab_order self.now.slab }
    {
        (self.slab_order.var_slab_with(self.number), self.round)
    }

    /// The variable, the record and how many elements are left of the slab that the next value is of; nothing where
    /// all values are there, or the sink failed. A fixed variable is in record 0.
    pub fn expects(&self) -> Option<(usize, u64, u64)>
        ensures { (start : Option (List ℕ)) (w : WriterState) → Stands start (W.put (sink_in self.now)) self.now w
            → result ≡ expected w }
    {
        if self.failed {
            return None;
        }
        if self.slab == self.slab_order.slabs() {
            return None;
        }
        let (var_slab, record) = self.var_slab();
        Some((var_slab.var, record, self.left))
    }

    /// Goes on to the next slab, of which nothing is there yet.
    #[inline(always)]
    fn open_slab(&mut self) -> Result<(), Device>
        requires { self.old.slab < self.old.slab_order.slabs }
        ensures next { OnOk result (self.new.slab ≡ self.old.slab + 1) }
        ensures slabs { self.new.slab_order.slabs ≡ self.old.slab_order.slabs }
        ensures opens { (start : Option (List ℕ)) (w : WriterState)
            → Ends [] start (W.put (sink_in self.old)) self.old w
            → StandsOrStops start (W.put (sink_in self.new)) self.new w result }
        ensures count { Counts (W.failures (sink_in self.old)) (W.failures (sink_in self.new)) result }
    {
        built_is_writable(&self.built);
        let next = self.slab + 1;
        if next < self.slab_order.slabs() {
            let (number, round) = self
                .slab_order
                .var_slab_after(self.slab, self.number, self.round);
            self.left = self.slab_order.var_slab_with(number).elements;
            self.number = number;
            self.round = round;
            self.slab = next;
            return Ok(());
        }
        self.paged_sink.flush()?;
        self.slab = next;
        Ok(())
    }

    /// Pads a slab that has all its elements, and goes on to the next one.
    #[inline(always)]
    fn close_slab(&mut self) -> Result<(), Device>
        requires { self.old.slab < self.old.slab_order.slabs }
        ensures next { OnOk result (self.new.slab ≡ self.old.slab + 1) }
        ensures slabs { self.new.slab_order.slabs ≡ self.old.slab_order.slabs }
        ensures closes { (start : Option (List ℕ)) (w : WriterState)
            → Ends (padding_bytes w.schema (slab_at w.schema self.old.slab).var)
            start (W.put (sink_in self.old)) self.old w
            → StandsOrStops start (W.put (sink_in self.new)) self.new w result }
        ensures count { Counts (W.failures (sink_in self.old)) (W.failures (sink_in self.new)) result }
    {
        let var_slab = self.var_slab().0;
        self.paged_sink
            .put_fills(var_slab.fill(), var_slab.padding)?;
        self.open_slab()
    }

    /// Goes on after so many elements of the slab, whose bytes were put after what waits.
    #[inline(always)]
    fn go_on(&mut self, count: u64) -> Result<(), Device>
        requires there { self.old.slab < self.old.slab_order.slabs }
        requires room { count ≤ self.old.left }
        ensures goes { (start : Option (List ℕ)) (w : WriterState) (bytes : List ℕ)
            → Gives bytes count start (W.put (sink_in self.old)) self.old w
            → StandsOrStops start (W.put (sink_in self.new)) self.new (with_more w bytes) result }
        ensures count { Counts (W.failures (sink_in self.old)) (W.failures (sink_in self.new)) result }
    {
        if count < self.left {
            self.left -= count;
            return Ok(());
        }
        self.close_slab()
    }

    /// Takes values that fit in the slab.
    #[inline(always)]
    fn take(&mut self, values: &Values) -> Result<(), Device>
        requires there { self.old.slab < self.old.slab_order.slabs }
        requires room { count_of values.now ≤ self.old.left }
        requires typed { type_of values.now ≡ (var_slab_at self.old.slab_order self.old.slab).xtype }
        ensures takes { (start : Option (List ℕ)) (w : WriterState) → Stands start (W.put (sink_in self.old)) self.old w
            → w.failed ≡ false
            → StandsOrStops start (W.put (sink_in self.new)) self.new (with_values w values.now) result }
        ensures count { Counts (W.failures (sink_in self.old)) (W.failures (sink_in self.new)) result }
    {
        self.paged_sink.put_values(values)?;
        self.go_on(values.len() as u64)
    }

    /// Takes the bytes of so many values that fit in the slab.
    #[inline(always)]
    fn take_bytes(&mut self, count: u64, bytes: &[u8]) -> Result<(), Device>
        requires there { self.old.slab < self.old.slab_order.slabs }
        requires room { count ≤ self.old.left }
        requires whole { length bytes.now ≡ count * size_of (var_slab_at self.old.slab_order self.old.slab).xtype }
        requires bytes { IsBytes bytes.now }
        ensures takes { (start : Option (List ℕ)) (w : WriterState) → Stands start (W.put (sink_in self.old)) self.old w
            → w.failed ≡ false
            → StandsOrStops start (W.put (sink_in self.new)) self.new (with_more w bytes.now) result }
        ensures count { Counts (W.failures (sink_in self.old)) (W.failures (sink_in self.new)) result }
    {
        self.paged_sink.put_bytes(bytes)?;
        self.go_on(count)
    }

    /// Takes the next values, any number up to what is left of the slab. Refused values change nothing. After a
    /// `Device` a beginning of the file went out, and every later `put`, `fill_rest` and `finish` is `Failed`.
    pub fn put(&mut self, values: &Values) -> Result<(), WriteFault>
        ensures answer { (start : Option (List ℕ)) (w : WriterState)
            → Stands start (W.put (sink_in self.old)) self.old w
            → IsAnswer (λ e. e) (refuses_put w values.now) result }
        ensures stands { (start : Option (List ℕ)) (w : WriterState)
            → Stands start (W.put (sink_in self.old)) self.old w
            → (new : WriterState) × Stands start (W.put (sink_in self.new)) self.new new
            × StandsAfter w (with_values w values.now) new result }
        ensures unchanged { IfErr result (λ e. (e ≡ faults.Device → ⊥) → self.new ≡ self.old) }
        ensures count { CountsFailure (W.failures (sink_in self.old)) (W.failures (sink_in self.new)) result }
    {
        if self.failed {
            return Err(WriteFault::Failed);
        }
        if self.slab == self.slab_order.slabs() {
            return Err(WriteFault::Complete);
        }
        if values.xtype() != self.var_slab().0.xtype {
            return Err(WriteFault::WrongType);
        }
        if values.len() as u64 > self.left {
            return Err(WriteFault::TooManyValues);
        }
        match self.take(values) {
            Ok(()) => Ok(()),
            Err(_) => {
                self.failed = true;
                Err(WriteFault::Device)
            }
        }
    }

    /// Takes the next values by their bytes, as `put` takes the values: as they stand in a file, one after another,
    /// each with its most significant byte first. A copy of a slab needs no values in between.
    #[inline(always)]
    pub fn put_bytes(&mut self, xtype: XType, bytes: &[u8]) -> Result<(), WriteFault>
        requires whole { length bytes.now % size_of xtype ≡ 0 }
        ensures answer { (start : Option (List ℕ)) (w : WriterState)
            → Stands start (W.put (sink_in self.old)) self.old w
            → IsAnswer (λ e. e) (refuses_put w (values_of xtype bytes.now)) result }
        ensures stands { (start : Option (List ℕ)) (w : WriterState)
            → Stands start (W.put (sink_in self.old)) self.old w
            → (new : WriterState) × Stands start (W.put (sink_in self.new)) self.new new
            × StandsAfter w (with_values w (values_of xtype bytes.now)) new result }
        ensures unchanged { IfErr result (λ e. (e ≡ faults.Device → ⊥) → self.new ≡ self.old) }
        ensures count { CountsFailure (W.failures (sink_in self.old)) (W.failures (sink_in self.new)) result }
    {
        if self.failed {
            return Err(WriteFault::Failed);
        }
        if self.slab == self.slab_order.slabs() {
            return Err(WriteFault::Complete);
        }
        if xtype != self.var_slab().0.xtype {
            return Err(WriteFault::WrongType);
        }
        let count = elements_in(xtype, bytes);
        if count > self.left {
            return Err(WriteFault::TooManyValues);
        }
        are_bytes(bytes);
        match self.take_bytes(count, bytes) {
            Ok(()) => Ok(()),
            Err(_) => {
                self.failed = true;
                Err(WriteFault::Device)
            }
        }
    }

    /// Fills what is left of the slab.
    fn fill_slab(&mut self) -> Result<(), Device>
        requires { self.old.slab < self.old.slab_order.slabs }
        ensures fills { (start : Option (List ℕ)) (w : WriterState) → Stands start (W.put (sink_in self.old)) self.old w
            → w.failed ≡ false → StandsOrStops start (W.put (sink_in self.new)) self.new
            (with_more w (fills self.old.left (slab_at w.schema self.old.slab).var)) result }
        ensures next { OnOk result (self.new.slab ≡ self.old.slab + 1) }
        ensures slabs { self.new.slab_order.slabs ≡ self.old.slab_order.slabs }
        ensures count { Counts (W.failures (sink_in self.old)) (W.failures (sink_in self.new)) result }
    {
        let var_slab = self.var_slab().0;
        self.paged_sink.put_fills(var_slab.fill(), self.left)?;
        self.close_slab()
    }

    /// Fills all that is left.
    fn fill_slabs(&mut self) -> Result<(), Device>
        ensures fills { (start : Option (List ℕ)) (w : WriterState) → Stands start (W.put (sink_in self.old)) self.old w
            → w.failed ≡ false → StandsOrStops start (W.put (sink_in self.new)) self.new (with_fills w) result }
        ensures count { Counts (W.failures (sink_in self.old)) (W.failures (sink_in self.new)) result }
    {
        while self.slab < self.slab_order.slabs() {
            self.fill_slab()?;
        }
        Ok(())
    }

    /// Puts fill values for all that is still expected: of each variable its first attribute `_FillValue` where that
    /// is one value of its type, else the default of the type. After a `Device` a beginning of the file went out,
    /// and every later `put`, `fill_rest` and `finish` is `Failed`.
    pub fn fill_rest(&mut self) -> Result<(), WriteFault>
        ensures answer { (start : Option (List ℕ)) (w : WriterState)
            → Stands start (W.put (sink_in self.old)) self.old w
            → IsAnswer (λ e. e) (refuses_fill w) result }
        ensures stands { (start : Option (List ℕ)) (w : WriterState)
            → Stands start (W.put (sink_in self.old)) self.old w
            → (new : WriterState) × Stands start (W.put (sink_in self.new)) self.new new
            × StandsAfter w (with_fills w) new result }
        ensures complete { (start : Option (List ℕ)) (w : WriterState)
            → Stands start (W.put (sink_in self.old)) self.old w
            → w.failed ≡ false → next_of w.schema w.taken ≡ None → IsOk result × (self.new ≡ self.old) }
        ensures unchanged { IfErr result (λ e. (e ≡ faults.Device → ⊥) → self.new ≡ self.old) }
        ensures count { CountsFailure (W.failures (sink_in self.old)) (W.failures (sink_in self.new)) result }
    {
        if self.failed {
            return Err(WriteFault::Failed);
        }
        if self.slab == self.slab_order.slabs() {
            return Ok(());
        }
        match self.fill_slabs() {
            Ok(()) => Ok(()),
            Err(_) => {
                self.failed = true;
                Err(WriteFault::Device)
            }
        }
    }

    /// Ends a file that has all its values, which is then out, and gives the sink back. Nothing is written here.
    /// A refused writer is given back as it was.
    pub fn finish(self) -> Result<W, (FileWriter<W>, WriteFault)>
        ensures answer { (start : Option (List ℕ)) (w : WriterState) → Stands start (W.put (sink_in self)) self w
            → IsExactly (λ e. e.1) (refuses_finish w) result }
        ensures file { (start : Option (List ℕ)) (w : WriterState) → Stands start (W.put (sink_in self)) self w
            → IfOk result (λ sink. Went start (W.put sink) (λ out. ∥ IsCompleted w.schema w.taken out ∥₁)) }
        ensures sink { IfOk result (λ sink. sink ≡ sink_in self) }
        ensures unchanged { IfErr result (λ e. e.0 ≡ self) }
    {
        built_is_writable(&self.built);
        taking_all_completes();
        if self.failed {
            return Err((self, WriteFault::Failed));
        }
        if self.slab < self.slab_order.slabs() {
            return Err((self, WriteFault::Unfinished));
        }
        Ok(self.into_sink())
    }

    /// Gives the sink back. All that went out is in it, and what waits in the buffer isn't.
    pub fn into_sink(self) -> W
        ensures { result ≡ sink_in self }
    {
        self.paged_sink.into_sink()
    }
}
