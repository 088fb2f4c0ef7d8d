//! How floats are printed.

/// How floats and doubles are printed.
#[derive(Clone, Copy, Debug, PartialEq, Eq)]
pub enum FloatStyle {
    /// `0x` and the bits, in hexadecimal.
    Bits,
    /// The shortest decimal that reads back to the same bits.
    Decimal,
}
