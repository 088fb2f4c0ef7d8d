//! The order in which slabs are put.

ghost use Rattle.std.specs.Prelude.{◌≡◌, ◌<◌, ◌≤◌, ◌+◌, length};

use crate::all_var_slabs::{add_var_slabs, record_variables};
use crate::var_slab::VarSlab;
use ncc_layout::Sizes;
use ncc_schema::Schema;
use std::alloc::{AllocError, Global};

/// The `VarSlab`s of the fixed variables, and after them those of the record variables, which come round in each record.
#[derive(Drop)]
pub(crate) struct SlabOrder {
    var_slabs: Vec<VarSlab>,
    /// How many of them are of fixed variables.
    fixed: u64,
    /// How many slabs there are.
    slabs: u64,
    ghost fixed_are: { fixed ≤ length var_slabs.items },
    ghost more: { fixed < slabs → fixed < length var_slabs.items },
}

impl SlabOrder {
    ghost use Rattle.std.specs.Prelude.{IfOk, get_or};
    ghost use Rattle.ncc_layout.specs.Plans.{known};
    ghost use Rattle.ncc_layout.specs.Sizes.{AreSizes};
    ghost use Rattle.ncc_layout.specs.Standard.{FitsVersion};
    ghost use Rattle.ncc_schema.specs.Schema.{Sound};
    ghost use Rattle.ncc_write.specs.VarSlabs.{IsSlabOrder, no_var_slab, var_slab_at, var_slab_number, record_at};

    /// The slabs of a schema with these sizes and so many records.
    pub(crate) fn new(
        alloc: Global,
        schema: &Schema,
        sizes: &Sizes,
        records: u64,
    ) -> Result<SlabOrder, AllocError>
        requires sound { Sound schema.now }
        requires sizes { AreSizes schema.now sizes.now }
        requires records { records ≡ known schema.now.count }
        requires fits { FitsVersion schema.now records }
        ensures { IfOk result (IsSlabOrder schema.now) }
    {
        let slabs = sizes.slabs.as_slice();
        let mut var_slabs = Vec::new(alloc);
        add_var_slabs(&mut var_slabs, schema, slabs, false, false)?;
        let fixed = var_slabs.len() as u64;
        let lone = record_variables(schema) == 1;
        add_var_slabs(&mut var_slabs, schema, slabs, true, lone)?;
        let in_record = var_slabs.len() as u64 - fixed;
        Ok(SlabOrder {
            var_slabs,
            fixed,
            slabs: fixed + records * in_record,
        })
    }

    /// How many slabs there are.
    pub(crate) fn slabs(&self) -> u64
        ensures { result ≡ self.now.slabs }
    {
        self.slabs
    }

    /// What is put for a slab by its number, and in which record; a fixed variable is in record 0.
    pub(crate) fn var_slab(&self, slab: u64) -> (VarSlab, u64)
        requires { slab < self.now.slabs }
        ensures var_slab { result.0 ≡ var_slab_at self.now slab }
        ensures record { result.1 ≡ record_at self.now slab }
    {
        if slab < self.fixed {
            return (self.var_slabs[slab as usize], 0);
        }
        let in_record = self.var_slabs.len() as u64 - self.fixed;
        let behind = slab - self.fixed;
        let number = self.fixed + behind % in_record;
        (self.var_slabs[number as usize], behind / in_record)
    }

    /// The `VarSlab` with this number.
    pub(crate) fn var_slab_with(&self, number: usize) -> VarSlab
        requires { number < length self.now.var_slabs.items }
        ensures { result ≡ get_or self.now.var_slabs.items number no_var_slab }
    {
        self.var_slabs[number]
    }

    /// The number of the next slab's `VarSlab`, and its record, by those of this one: without a division.
    pub(crate) fn var_slab_after(&self, slab: u64, number: usize, round: u64) -> (usize, u64)
        requires next { slab + 1 < self.now.slabs }
        requires number { number ≡ var_slab_number self.now slab }
        requires record { round ≡ record_at self.now slab }
        ensures number { result.0 ≡ var_slab_number self.now (slab + 1) }
        ensures record { result.1 ≡ record_at self.now (slab + 1) }
    {
        if number + 1 < self.var_slabs.len() {
            return (number + 1, round);
        }
        (self.fixed as usize, round + 1)
    }

    /// How many elements the first slab has, if there is one.
    pub(crate) fn first_elements(&self) -> u64
        ensures { 0 < self.now.slabs → result ≡ (var_slab_at self.now 0).elements }
    {
        if self.slabs == 0 {
            return 0;
        }
        self.var_slab(0).0.elements
    }
}
