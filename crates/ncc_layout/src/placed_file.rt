//! A file in which every element has its place.

ghost use Rattle.std.specs.Prelude.{◌≡◌, ◌+◌, ◌<◌, ◌^◌, length, map};
ghost use Rattle.std.specs.List.{AllByRecursion};
ghost use Rattle.ncc_layout.specs.Extents.{records_of, least_begin, LeastBegin};
ghost use Rattle.ncc_layout.specs.Elements.{AreLaid, AreSized, HasLengths, var_at, with_records};

use crate::packing::are_packed;
use crate::placed_var::PlacedVar;
use crate::records::first_begin_of;
use ncc_values::XType;

/// The variables of a file at their places. All layout rules hold of them.
#[derive(Drop)]
pub struct Placed {
    header_length: u64,
    file_length: u64,
    record_size: u64,
    records: u64,
    vars: Vec<PlacedVar>,
    ghost fits: { file_length < 2 ^ 64 },
    ghost laid: { ∥ AreLaid header_length file_length record_size records vars.items ∥₁ },
    ghost sized: { ∥ AreSized record_size vars.items ∥₁ },
}

impl Placed {
    ghost use Rattle.std.specs.Prelude.{◌↔◌, ◌≤◌, IsTrue, MatchOption};
    ghost use Rattle.ncc_layout.specs.Packed.{IsPacked, record_at};
    ghost use Rattle.ncc_layout.specs.Placed.{header_length_of, file_length_of, record_size_of_file, records_of_file, vars_of, extents_of_file, HasRoom, HasOneMore};

    /// The variables at these places.
    pub(crate) fn new(
        header_length: u64,
        file_length: u64,
        record_size: u64,
        records: u64,
        vars: Vec<PlacedVar>,
    ) -> Placed
        requires laid { AreLaid header_length file_length record_size records vars.items }
        requires sized { AreSized record_size vars.items }
        ensures header { header_length_of result ≡ header_length }
        ensures file { file_length_of result ≡ file_length }
        ensures stride { record_size_of_file result ≡ record_size }
        ensures records { records_of_file result ≡ records }
        ensures vars { vars_of result ≡ vars.items }
    {
        Placed {
            header_length,
            file_length,
            record_size,
            records,
            vars,
        }
    }

    /// The bytes of the header.
    pub fn header_length(&self) -> u64
        ensures { result ≡ header_length_of self.now }
    {
        self.header_length
    }

    /// The bytes of the file.
    pub fn file_length(&self) -> u64
        ensures { result ≡ file_length_of self.now }
    {
        self.file_length
    }

    /// The number of records.
    pub fn records(&self) -> u64
        ensures { result ≡ records_of_file self.now }
    {
        self.records
    }

    /// The bytes of a record.
    pub fn record_size(&self) -> u64
        ensures { result ≡ record_size_of_file self.now }
    {
        self.record_size
    }

    /// Where the records begin: the least begin of a record variable, where there is one.
    pub fn records_begin(&self) -> Option<u64>
        ensures value { result ≡ least_begin (records_of (extents_of_file self.now)) }
        ensures least { LeastBegin (records_of (extents_of_file self.now)) result }
    {
        first_begin_of(self.vars.as_slice())
    }

    /// Are the record variables packed, so that one more record goes after the last? In their order each must begin
    /// where the one before it ends with its padding, and the file lack no more than three bytes of the last record.
    pub fn is_packed(&self) -> bool
        ensures { IsTrue result ↔ IsPacked self.now }
    {
        let begin = self.records_begin().unwrap_or(0);
        let size = self.records as u128 * self.record_size as u128;
        are_packed(self.vars.as_slice(), begin)
            && begin as u128 + size <= self.file_length as u128 + 3
    }

    /// The offset at which a record begins, where it is less than 2^64.
    pub fn record_place(&self, number: u64) -> Option<u64>
        ensures { MatchOption result (2 ^ 64 ≤ record_at self.now number) (λ place. place ≡ record_at self.now number) }
    {
        let begin = self.records_begin().unwrap_or(0);
        begin.checked_add(number.checked_mul(self.record_size)?)
    }

    /// The variables, in their order.
    pub fn vars(&self) -> &[PlacedVar]
        ensures { result.now ≡ vars_of self.now }
    {
        self.vars.as_slice()
    }

    pub fn xtype(&self, var: usize) -> XType
        requires { var < length (vars_of self.now) }
        ensures { result ≡ (var_at (vars_of self.now) var).xtype }
    {
        self.vars[var].xtype
    }

    /// Is its first dimension the record dimension?
    pub fn is_record(&self, var: usize) -> bool
        requires { var < length (vars_of self.now) }
        ensures { result ≡ (var_at (vars_of self.now) var).extent.is_record }
    {
        self.vars[var].extent.is_record
    }

    /// The length of each dimension; of a record variable the first is the number of records.
    pub fn shape(&self, var: usize) -> &[u64]
        requires { var < length (vars_of self.now) }
        ensures { result.now ≡ (var_at (vars_of self.now) var).shape }
    {
        self.vars[var].shape.as_slice()
    }

    /// The offset in bytes of the variable's first byte.
    pub fn begin(&self, var: usize) -> u64
        requires { var < length (vars_of self.now) }
        ensures { result ≡ (var_at (vars_of self.now) var).extent.begin }
    {
        self.vars[var].extent.begin
    }

    /// The bytes of a fixed variable, or of a record variable in one record, without padding.
    pub fn slab(&self, var: usize) -> u64
        requires { var < length (vars_of self.now) }
        ensures { result ≡ (var_at (vars_of self.now) var).extent.slab }
    {
        self.vars[var].extent.slab
    }

    /// One more record, in a file of this length that has room for it. It allocates nothing.
    pub fn one_more(&mut self, file_length: u64)
        requires countable { records_of_file self.old + 1 < 2 ^ 64 }
        requires rules { HasRoom self.old file_length }
        ensures { HasOneMore self.old file_length self.new }
    {
        let records = self.records + 1;
        lengthen(&mut self.vars, records);
        self.records = records;
        self.file_length = file_length;
    }
}

/// Gives a record variable this number of records.
fn lengthen_var(var: &mut PlacedVar, records: u64)
    requires { HasLengths var.old }
    ensures { var.new ≡ with_records records var.old }
{
    if var.extent.is_record {
        var.shape.set(0, records);
    }
}

/// Gives all record variables this number of records.
fn lengthen(vars: &mut Vec<PlacedVar>, records: u64)
    requires { AllByRecursion HasLengths vars.old.items }
    ensures { vars.new.items ≡ map (with_records records) vars.old.items }
{
    for var in vars.iter_mut() {
        lengthen_var(var, records);
    }
}
