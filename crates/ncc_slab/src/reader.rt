//! Reading the values of a selection in parts, over the file that holds it.

ghost use Rattle.std.specs.Prelude.{◌≤◌};
ghost use Rattle.ncc_layout.specs.Placed.{file_length_of};
ghost use Rattle.ncc_check.specs.Files.{placed_of};
ghost use Rattle.ncc_slab.specs.SlabParts.{parts_length};

use crate::fault::SlabFault;
use crate::parts::SlabParts;
use crate::slab::Slab;
use ncc_check::NcFile;
use ncc_store::Store;
use ncc_values::{Values, XType};
use std::alloc::Global;

/// What is left of a selection, over the open file that holds it, with a buffer of 65,536 bytes. Whoever uses
/// the file afterwards ends the reader by `into_file`: what is known of the file then is what the reader's
/// clauses say of it. Of a reader that is dropped they say nothing.
#[derive(Drop)]
pub struct SlabReader<'a, S: Store> {
    file: &'a mut NcFile<S>,
    parts: SlabParts,
    ghost long: { parts_length parts ≤ file_length_of (placed_of file.now) },
}

impl<'a, S: Store> SlabReader<'a, S> {
    ghost use Rattle.std.specs.Prelude.{◌≡◌, ◌+◌, take, true, [], IsTrue, IsOk, IfOk, OnErr};
    ghost use Rattle.ncc_values.specs.XType.{size_of};
    ghost use Rattle.ncc_values.specs.Values.{type_of, count_of};
    ghost use Rattle.ncc_layout.specs.Placed.{vars_of};
    ghost use Rattle.ncc_check.specs.Files.{ReadsFile, store_of};
    ghost use Rattle.ncc_slab.specs.Answers.{SelectsAs, PartCounts, TakesPart};
    ghost use Rattle.ncc_slab.specs.Selected.{AddsPlaces};
    ghost use Rattle.ncc_slab.specs.SlabParts.{parts_left, parts_type};
    ghost use Rattle.ncc_slab.specs.Stretches.{part_stretches};
    ghost use Rattle.ncc_slab.specs.Readers.{Begins, left_in, file_in, type_in};

    /// A reader of a selection of the variable with this number. A selection is refused before any memory
    /// is asked for. Nothing is read yet. No clause says what a refusal leaves of the file: `SlabParts::new`
    /// borrows none, and `over` isn't refused.
    pub fn new(
        alloc: Global,
        file: &'a mut NcFile<S>,
        var: usize,
        slab: &Slab,
    ) -> Result<SlabReader<'a, S>, SlabFault>
        ensures same_reference { IfOk result (λ r. r.file.ghost_name ≡ file.entry.ghost_name) }
        ensures answers { SelectsAs (vars_of (placed_of file.old)) var slab.now (Begins file.old var slab.now) result }
    {
        let parts = SlabParts::new(alloc, file.placed(), var, slab)?;
        Ok(SlabReader { file, parts })
    }

    /// A reader of what is left of these parts. The open file is no shorter than the one they were made for.
    pub fn over(file: &'a mut NcFile<S>, parts: SlabParts) -> SlabReader<'a, S>
        requires { parts_length parts ≤ file_length_of (placed_of file.old) }
        ensures same_reference { result.file.ghost_name ≡ file.entry.ghost_name }
        ensures file { file_in result ≡ file.old }
        ensures type_is { type_in result ≡ parts_type parts }
        ensures left { left_in result ≡ parts_left parts }
    {
        SlabReader { file, parts }
    }

    /// The type of the values.
    pub fn xtype(&self) -> XType
        ensures { result ≡ type_in self.now }
    {
        self.parts.xtype()
    }

    /// Adds the next values, as many as the buffer has room for or as are left, and tells how many: 0
    /// exactly where none are left, which never fails. Each stretch of adjoining elements is read by one call
    /// of the store. After an `Err`, of the store or of memory, the values and the reader are as they were, but
    /// for what the store counts.
    pub fn next_part(&mut self, values: &mut Values) -> Result<usize, SlabFault>
        requires { type_of values.old ≡ type_in self.old }
        ensures same_reference { self.new.file.ghost_name ≡ self.old.file.ghost_name }
        ensures took { IfOk result (TakesPart (size_of (type_in self.old)) (left_in self.old) (left_in self.new)) }
        ensures values { IsTrue S.tells_bytes → IfOk result (λ n. AddsPlaces (S.bytes (store_of (file_in self.old)))
            (size_of (type_in self.old)) (take n (left_in self.old)) values.old values.new) }
        ensures typed { type_of values.new ≡ type_of values.old }
        ensures counted { IfOk result (λ n. count_of values.new ≡ count_of values.old + n) }
        ensures type_is { type_in self.new ≡ type_in self.old }
        ensures left { OnErr result (left_in self.new ≡ left_in self.old) }
        ensures err { OnErr result (values.new ≡ values.old) }
        ensures ends { left_in self.old ≡ [] → IsOk result }
        ensures file { ReadsFile (file_in self.old) (file_in self.new) (λ a b. PartCounts a b result) true
            (part_stretches (size_of (type_in self.old)) (left_in self.old))
            (file_length_of (placed_of (file_in self.old))) }
    {
        self.parts.next_part(self.file, values)
    }

    /// The open file, with all that was done to it.
    pub fn into_file(self) -> &'a mut NcFile<S>
        ensures same_reference { result.ghost_name ≡ self.entry.file.ghost_name }
        ensures file { result.now ≡ file_in self.entry }
    {
        self.file
    }
}
