//! The header of a file, and the sizes of its variables.

ghost use Rattle.std.specs.Prelude.{◌≡◌, ℕ, IfErr, IfOk, IsTrue, length};
ghost use Rattle.ncc_store.specs.Reading.{ReadsOnly};
ghost use Rattle.ncc_layout.specs.Sizes.{AreSizes};
ghost use Rattle.ncc_check.specs.Checks.{CountsAs};
ghost use Rattle.ncc_check.specs.FromStore.{IsBegun, ReadsFew, calls_for};
ghost use Rattle.ncc_check.specs.Judging.{RefusesSizes};
ghost use Rattle.ncc_places.specs.Measuring.{AreBegun, Measures};

use ncc_check::{Refusal, header_of, sizes_of};
use ncc_header::Header;
use ncc_layout::Sizes;
use ncc_store::{Store, laws as store_laws};
use std::alloc::Global;

/// The header of a file, the sizes of its variables, and the file's length in bytes.
#[derive(Drop)]
pub struct Measured {
    pub header: Header,
    pub sizes: Sizes,
    pub file_length: u64,
}

/// A header with the sizes of its variables, and the length of its file.
fn measure_header(alloc: Global, header: Header, file_length: u64) -> Result<Measured, Refusal>
    requires { IsBegun header }
    ensures header { IfOk result (λ x. x.header ≡ header) }
    ensures length { IfOk result (λ x. x.file_length ≡ file_length) }
    ensures sizes { IfOk result (λ x. AreSizes header.schema x.sizes) }
    ensures refuses { IfErr result (RefusesSizes header file_length) }
{
    match sizes_of(alloc, &header) {
        Ok(sizes) => Ok(Measured {
            header,
            sizes,
            file_length,
        }),
        Err(refusal) => Err(refusal),
    }
}

/// The header of the file in a store, of at most `limit` bytes, and the sizes of its variables. The store is asked for
/// its length once, and for pieces of at most 65,536 bytes.
pub fn measure<S: Store>(alloc: Global, store: &mut S, limit: u64) -> Result<Measured, Refusal>
    ensures measures { IsTrue S.tells_bytes → Measures (S.bytes store.old) limit result }
    ensures begun { AreBegun result }
    ensures store { ReadsOnly S.Store store.old store.new (λ a b. CountsAs a b result) S.tells_bytes
        (calls_for (length (S.bytes store.old)) limit) limit }
    ensures settled { IsTrue S.tells_bytes → ReadsFew S.Store store.old store.new (S.bytes store.old) limit 1 }
{
    store_laws::unmoved_calls_join::<S>();
    let file_length = store.len()?;
    let header = header_of(alloc, store, limit, file_length)?;
    measure_header(alloc, header, file_length)
}
