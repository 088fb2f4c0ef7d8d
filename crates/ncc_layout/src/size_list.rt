//! The sizes of a schema.

use ncc_values::Seq;

/// The sizes of a schema, in bytes.
#[derive(Debug, Drop, PartialEq, Eq)]
pub struct Sizes {
    /// Of each variable, of a record variable in one record.
    pub slabs: Seq<u64>,
    /// The same with the padding to a multiple of four.
    pub rounded: Seq<u64>,
    pub record_size: u64,
}
