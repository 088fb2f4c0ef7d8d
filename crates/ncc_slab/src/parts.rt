//! Reading the values of a selection in parts, of a file that stays its caller's.

ghost use Rattle.std.specs.Prelude.{◌≡◌, ◌≤◌, length};
ghost use Rattle.ncc_values.specs.XType.{size_of};
ghost use Rattle.ncc_slab.specs.Answers.{buffer_length};
ghost use Rattle.ncc_slab.specs.Grids.{EndBy};

use crate::fault::SlabFault;
use crate::fetching::add_part;
use crate::grid::Grid;
use crate::gridding::grid_of;
use crate::reading::BUFFER;
use crate::slab::Slab;
use ncc_check::NcFile;
use ncc_layout::Placed;
use ncc_store::Store;
use ncc_values::{Values, XType};
use std::alloc::Global;

/// What is left of a selection, with a buffer of 65,536 bytes. The file is handed to each call, which any
/// open file may be that is as long as the one that the selection was made for.
#[derive(Drop)]
pub struct SlabParts {
    grid: Grid,
    xtype: XType,
    taken: u64,
    file_length: u64,
    buffer: Vec<u8>,
    ghost within: { taken ≤ grid.count },
    ghost room: { length buffer.items ≡ buffer_length },
    ghost ends: { EndBy file_length (size_of xtype) grid },
}

impl SlabParts {
    ghost use Rattle.std.specs.Prelude.{take, true, [], IsTrue, IsOk, IfOk, OnErr, ◌+◌};
    ghost use Rattle.ncc_values.specs.Values.{type_of, count_of};
    ghost use Rattle.ncc_layout.specs.Placed.{file_length_of, vars_of};
    ghost use Rattle.ncc_check.specs.Files.{ReadsFile, store_of, placed_of};
    ghost use Rattle.ncc_slab.specs.Answers.{SelectsAs, PartCounts, TakesPart};
    ghost use Rattle.ncc_slab.specs.Selected.{AddsPlaces};
    ghost use Rattle.ncc_slab.specs.Stretches.{part_stretches};
    ghost use Rattle.ncc_slab.specs.SlabParts.{BeginsParts, parts_left, parts_length, parts_type};

    /// The parts of a selection of the variable with this number. A selection is refused before any memory
    /// is asked for. Nothing is read yet.
    pub fn new(
        alloc: Global,
        placed: &Placed,
        var: usize,
        slab: &Slab,
    ) -> Result<SlabParts, SlabFault>
        ensures { SelectsAs (vars_of placed.now) var slab.now (BeginsParts placed.now var slab.now) result }
    {
        let grid = grid_of(alloc, placed, var, slab)?;
        let xtype = placed.xtype(var);
        let buffer = vec![in alloc; 0; BUFFER]?;
        Ok(SlabParts {
            grid,
            xtype,
            taken: 0,
            file_length: placed.file_length(),
            buffer,
        })
    }

    /// The type of the values.
    pub fn xtype(&self) -> XType
        ensures { result ≡ parts_type self.now }
    {
        self.xtype
    }

    /// The length of the file that they were made for: that of a file they are read from is no less.
    pub fn file_length(&self) -> u64
        ensures { result ≡ parts_length self.now }
    {
        self.file_length
    }

    /// How many values are left.
    pub fn left(&self) -> u64
        ensures { result ≡ length (parts_left self.now) }
    {
        self.grid.count() - self.taken
    }

    /// Adds the next values, as many as the buffer has room for or as are left, and tells how many: 0
    /// exactly where none are left, which never fails. Each stretch of adjoining elements is read by one call
    /// of the store. After an `Err`, of the store or of memory, the values and what is left are as they were, but
    /// for what the store counts.
    pub fn next_part<S: Store>(
        &mut self,
        file: &mut NcFile<S>,
        values: &mut Values,
    ) -> Result<usize, SlabFault>
        requires type_is { type_of values.old ≡ parts_type self.old }
        requires long { parts_length self.old ≤ file_length_of (placed_of file.old) }
        ensures took { IfOk result
            (TakesPart (size_of (parts_type self.old)) (parts_left self.old) (parts_left self.new)) }
        ensures values { IsTrue S.tells_bytes → IfOk result (λ n. AddsPlaces (S.bytes (store_of file.old))
            (size_of (parts_type self.old)) (take n (parts_left self.old)) values.old values.new) }
        ensures typed { type_of values.new ≡ type_of values.old }
        ensures counted { IfOk result (λ n. count_of values.new ≡ count_of values.old + n) }
        ensures type_is { parts_type self.new ≡ parts_type self.old }
        ensures long { parts_length self.new ≡ parts_length self.old }
        ensures left { OnErr result (parts_left self.new ≡ parts_left self.old) }
        ensures err { OnErr result (values.new ≡ values.old) }
        ensures ends { parts_left self.old ≡ [] → IsOk result }
        ensures file { ReadsFile file.old file.new (λ a b. PartCounts a b result) true
            (part_stretches (size_of (parts_type self.old)) (parts_left self.old))
            (file_length_of (placed_of file.old)) }
    {
        if self.left() == 0 {
            return Ok(0);
        }
        let count = add_part(file, &self.grid, self.taken, &mut self.buffer, values)?;
        self.taken += count;
        Ok(count as usize)
    }
}
