//! What a writer is made of before anything goes out.

ghost use Rattle.std.specs.Prelude.{◌≡◌, length, IfOk};
ghost use Rattle.ncc_layout.specs.Plans.{known};
ghost use Rattle.ncc_build.specs.Builds.{schema_of};
ghost use Rattle.ncc_build.specs.File.{header_of};
ghost use Rattle.ncc_write.specs.VarSlabs.{IsSlabOrder};

use crate::paged_sink::BUFFER;
use crate::slab_order::SlabOrder;
use ncc_build::laws::built_is_writable;
use ncc_build::{Built, header_bytes};
use ncc_layout::{SizeError, sizes};
use ncc_schema::Count;
use std::alloc::{AllocError, Global};

/// The number of records.
pub(crate) fn records_of(count: Count) -> u64
    ensures { result ≡ known count }
{
    match count {
        Count::Known(n) => n,
        Count::Streaming => 0,
    }
}

/// The order of the slabs.
pub(crate) fn slab_order_of(alloc: Global, built: &Built) -> Result<SlabOrder, AllocError>
    ensures { IfOk result (IsSlabOrder (schema_of built.now)) }
{
    built_is_writable(built);
    let schema = built.schema();
    let sizes = match sizes(alloc, schema) {
        Ok(sizes) => sizes,
        Err(SizeError::TooLarge(_)) => unreachable!(),
        Err(SizeError::Memory) => return Err(AllocError),
    };
    SlabOrder::new(alloc, schema, &sizes, records_of(schema.count))
}

/// What a writer has before anything goes out.
#[derive(Drop)]
pub(crate) struct Parts {
    pub(crate) header: Vec<u8>,
    pub(crate) slab_order: SlabOrder,
    pub(crate) buffer: Vec<u8>,
}

/// The header's bytes, the order of the slabs, and the buffer.
pub(crate) fn prepared(alloc: Global, built: &Built) -> Result<Parts, AllocError>
    ensures header { IfOk result (λ p. p.header.items ≡ header_of (schema_of built.now)) }
    ensures slab_order { IfOk result (λ p. IsSlabOrder (schema_of built.now) p.slab_order) }
    ensures buffer { IfOk result (λ p. length p.buffer.items ≡ 65544) }
{
    let header = header_bytes(alloc, built)?;
    let slab_order = slab_order_of(alloc, built)?;
    let buffer = vec![in alloc; 0; BUFFER]?;
    Ok(Parts {
        header,
        slab_order,
        buffer,
    })
}
