//! Whether each slab of an open file reads as it was put.

ghost use Rattle.std.specs.Prelude.{◌≡◌, ◌↔◌, ◌/◌, ◌%◌, length, IsTrue, IfErr, IfOk};
ghost use Rattle.ncc_values.specs.Values.{bytes_of, count_of, type_of};
ghost use Rattle.ncc_values.specs.XType.{size_of};
ghost use Rattle.ncc_layout.specs.Elements.{var_at};
ghost use Rattle.ncc_layout.specs.Placed.{record_size_of_file, vars_of};
ghost use Rattle.ncc_check.specs.Files.{store_of, placed_of};
ghost use Rattle.ncc_slab.specs.Selected.{bytes_at};
ghost use Rattle.ncc_slab.specs.SlabPlaces.{HasSlab, slab_begin};
ghost use Rattle.ncc_write.specs.Trips.{AllRead, of_slab};
ghost use Rattle.ncc_write.specs.declared.trip_fault.TripFault.TheVariants.{Memory};

use crate::putting::are_bytes;
use crate::slab_order::SlabOrder;
use crate::trip_fault::TripFault;
use ncc_check::NcFile;
use ncc_slab::laws::{whole_slab_adjoins, whole_slab_is_there};
use ncc_slab::{SlabFault, read_slab, slab_of};
use ncc_store::Store;
use ncc_values::Values;
use std::alloc::{AllocError, Global};

/// Spells the values into a buffer, and compares them with these bytes, as many as they have.
fn same_bytes(values: &Values, buffer: &mut [u8], bytes: &[u8]) -> bool
    requires room { length buffer.old ≡ length bytes.now }
    requires whole { length bytes.now % size_of (type_of values.now) ≡ 0 }
    requires counted { length bytes.now / size_of (type_of values.now) ≡ count_of values.now }
    ensures { IsTrue result ↔ (bytes_of values.now ≡ bytes.now) }
{
    values.put_from(0, buffer);
    *buffer == *bytes
}

/// Whether these are the bytes of the values.
fn spells(alloc: Global, values: &Values, bytes: &[u8]) -> Result<bool, AllocError>
    ensures { IfOk result (λ same. IsTrue same ↔ (bytes_of values.now ≡ bytes.now)) }
{
    let size = values.xtype().size();
    if bytes.len() % size != 0 {
        return Ok(false);
    }
    if bytes.len() / size != values.len() {
        return Ok(false);
    }
    let mut buffer = vec![in alloc; 0; bytes.len()]?;
    Ok(same_bytes(values, &mut buffer, bytes))
}

/// What the fault of a slab is.
fn of_slab(fault: SlabFault) -> TripFault
    ensures { result ≡ of_slab fault }
{
    match fault {
        SlabFault::Device => TripFault::Memory,
        SlabFault::Memory => TripFault::Memory,
        _ => TripFault::Differs,
    }
}

/// Reads a slab, which has these bytes in the file, and compares them.
fn same_slab<S: Store>(
    alloc: Global,
    file: &mut NcFile<S>,
    var: usize,
    number: u64,
    bytes: &[u8],
) -> Result<(), TripFault>
    requires told { IsTrue S.tells_bytes }
    requires has { HasSlab (placed_of file.old) var number }
    requires whole { length bytes.now % size_of (var_at (vars_of (placed_of file.old)) var).xtype ≡ 0 }
    requires there { bytes_at (S.bytes (store_of file.old))
        (slab_begin (record_size_of_file (placed_of file.old)) (var_at (vars_of (placed_of file.old)) var) number)
        (var_at (vars_of (placed_of file.old)) var).extent.slab ≡ bytes.now }
    ensures memory { IfErr result (λ e. e ≡ Memory) }
    ensures bytes { S.bytes (store_of file.new) ≡ S.bytes (store_of file.old) }
    ensures placed { placed_of file.new ≡ placed_of file.old }
{
    whole_slab_adjoins();
    whole_slab_is_there();
    are_bytes(bytes);
    let slab = match slab_of(alloc, file, var, number) {
        Ok(slab) => slab,
        Err(fault) => return Err(of_slab(fault)),
    };
    let values = match read_slab(alloc, file, var, &slab) {
        Ok(values) => values,
        Err(fault) => return Err(of_slab(fault)),
    };
    if spells(alloc, &values, bytes)? {
        return Ok(());
    }
    Err(TripFault::Differs)
}

/// Reads slab after slab, and compares each with its bytes of these.
pub(crate) fn all_same<S: Store>(
    alloc: Global,
    file: &mut NcFile<S>,
    slab_order: &SlabOrder,
    bytes: &[u8],
) -> Result<(), TripFault>
    requires told { IsTrue S.tells_bytes }
    requires reads { AllRead (S.bytes (store_of file.old)) (placed_of file.old) slab_order.now bytes.now }
    ensures memory { IfErr result (λ e. e ≡ Memory) }
{
    let mut rest = bytes;
    for slab in 0..slab_order.slabs() {
        let (var_slab, record) = slab_order.var_slab(slab);
        let size = file.placed().slab(var_slab.var) as usize;
        let (piece, after) = rest.split_at(size);
        same_slab(alloc, file, var_slab.var, record, piece)?;
        rest = after;
    }
    Ok(())
}
