//! What a file holds, by one reading of its header.

ghost use Rattle.std.specs.Prelude.{◌≡◌};
ghost use Rattle.ncc_c.specs.Opening.{opened_by, with_numbers_of, without_numbers};

use crate::index::Indexed;
use ncc_front::{Found, FrontRefusal};

/// What `ncc_read` answers of a file.
#[repr(C)]
#[derive(Clone, Copy, Debug, PartialEq, Eq)]
pub struct Opened {
    pub rows: Indexed,
    pub version: u64,
    pub header_length: u64,
    pub records: u64,
    pub record_size: u64,
    pub global_attrs: u64,
}

/// An answer with nothing but an index.
pub fn without_numbers(rows: Indexed) -> Opened
    ensures { result ≡ without_numbers rows }
{
    Opened {
        rows,
        version: 0,
        header_length: 0,
        records: 0,
        record_size: 0,
        global_attrs: 0,
    }
}

/// The numbers of a file that passes.
fn with_numbers_of(found: &Found, rows: Indexed) -> Opened
    ensures { result ≡ with_numbers_of found.now rows }
{
    Opened {
        rows,
        version: found.header.schema.version.byte() as u64,
        header_length: found.header.length,
        records: found.placed.records(),
        record_size: found.placed.record_size(),
        global_attrs: found.header.schema.gatts.len() as u64,
    }
}

/// The numbers of what was found, beside its index.
pub fn opened_by(found: &Result<Found, FrontRefusal>, rows: Indexed) -> Opened
    ensures { result ≡ opened_by found.now rows }
{
    match found {
        Ok(found) => with_numbers_of(found, rows),
        Err(_) => without_numbers(rows),
    }
}
