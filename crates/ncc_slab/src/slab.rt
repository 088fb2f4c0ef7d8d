//! What is selected.

use ncc_values::Seq;

/// A selection: along each dimension `count` indices from `start` on, each `stride` past the one before it.
#[derive(Debug, Drop, PartialEq, Eq)]
pub struct Slab {
    pub start: Seq<u64>,
    pub count: Seq<u64>,
    pub stride: Seq<u64>,
}
