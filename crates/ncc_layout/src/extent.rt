//! The bytes that a variable takes in a file.

ghost use Rattle.std.specs.Prelude.{◌≡◌};
ghost use Rattle.ncc_layout.specs.Extents.{end};
ghost use Rattle.ncc_layout.specs.Bounds.{rank};

/// The bytes of a fixed variable, or of a record variable in record 0, without padding.
#[derive(Clone, Copy, Debug, PartialEq, Eq)]
pub struct Extent {
    /// The offset of the first byte.
    pub begin: u64,
    /// The number of bytes.
    pub slab: u64,
    /// The variable's number in the header.
    pub variable: usize,
    pub is_record: bool,
}

impl Extent {
    /// The offset of the first byte after it.
    pub fn end(&self) -> u128
        ensures { result ≡ end self.now }
    {
        self.begin as u128 + self.slab as u128
    }

    /// A number that orders extents by begin, and then by variable.
    pub(crate) fn rank(&self) -> u128
        ensures { result ≡ rank self.now }
    {
        self.begin as u128 * (1 << 64) + self.variable as u128
    }
}
