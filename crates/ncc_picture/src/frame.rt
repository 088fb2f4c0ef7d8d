//! The numbers of a file that its bars are drawn by.

use ncc_places::Records;

/// The numbers of a file, in bytes from its start.
#[derive(Clone, Copy, Debug, PartialEq, Eq)]
pub struct Frame {
    pub file_length: u64,
    pub header_length: u64,
    /// Where all ends that the header speaks of.
    pub past: u128,
    pub records: Option<Records>,
    /// Where the last slab of the first record ends.
    pub slabs_end: u128,
}
