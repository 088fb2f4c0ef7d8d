//! A variable and where it lies.

use crate::extent::Extent;
use ncc_values::{Seq, XType};

/// A variable, its lengths and its place.
#[derive(Debug, Drop, PartialEq, Eq)]
pub struct PlacedVar {
    pub xtype: XType,
    /// The length of each dimension; of a record variable the first is the number of records.
    pub shape: Seq<u64>,
    pub extent: Extent,
}
