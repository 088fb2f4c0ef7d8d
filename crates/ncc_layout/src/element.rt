//! Where an element lies.

ghost use Rattle.std.specs.Prelude.{◌↔◌, ◌<◌, ◌^◌, ◌≡◌, IfSome, IsTrue};
ghost use Rattle.ncc_layout.specs.Elements.{row_major, offset_of, Inside, IsPlace};
ghost use Rattle.ncc_layout.specs.Placed.{record_size_of_file, vars_of, IsInFile};

use crate::placed_file::Placed;
use crate::placed_var::PlacedVar;

/// Are there as many indices as lengths, each below its own?
fn is_inside(lengths: &[u64], index: &[u64]) -> bool
    ensures { IsTrue result ↔ Inside lengths.now index.now }
{
    if lengths.len() != index.len() {
        return false;
    }
    for k in 0..lengths.len() {
        if index[k] >= lengths[k] {
            return false;
        }
    }
    true
}

/// The row-major number of an index list, the last index fastest.
fn row_major(lengths: &[u64], index: &[u64]) -> u64
    requires inside { Inside lengths.now index.now }
    requires fits { row_major lengths.now index.now < 2 ^ 64 }
    ensures { result ≡ row_major lengths.now index.now }
{
    let mut number = 0;
    for k in 0..index.len() {
        number = number * lengths[k] + index[k];
    }
    number
}

/// How far from its variable's begin an element lies.
fn offset_in(var: &PlacedVar, record_size: u64, index: &[u64]) -> u64
    requires inside { Inside var.now.shape index.now }
    requires fits { offset_of record_size var.now index.now < 2 ^ 64 }
    ensures { result ≡ offset_of record_size var.now index.now }
{
    let lengths = var.shape.as_slice();
    let size = var.xtype.size() as u64;
    if !var.extent.is_record {
        return row_major(lengths, index) * size;
    }
    match index {
        [] => 0,
        [record, others @ ..] => record * record_size + row_major(&lengths[1..], others) * size,
    }
}

/// The offset of an element's first byte, by the number of its variable and an index for each of
/// its dimensions; None where there is no such variable or element.
pub fn place(placed: &Placed, var: usize, index: &[u64]) -> Option<u64>
    ensures place { IsPlace (record_size_of_file placed.now) (vars_of placed.now) var index.now result }
    ensures inside { IfSome result (IsInFile placed.now var) }
{
    let vars = placed.vars();
    if var >= vars.len() {
        return None;
    }
    let var = &vars[var];
    if !is_inside(var.shape.as_slice(), index) {
        return None;
    }
    Some(var.extent.begin + offset_in(var, placed.record_size(), index))
}
