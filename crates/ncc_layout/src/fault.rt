//! Which rule of a layout fails.

ghost use Rattle.std.specs.Prelude.{◌≡◌};
ghost use Rattle.ncc_layout.specs.declared.fault.SizeError.TheVariants.{Memory};
ghost use Rattle.ncc_layout.specs.declared.fault.PlaceError.TheVariants as place_error;

use std::alloc::{AllocError, AllocFailed};
use thiserror::Error;

/// The layout rules, in the order in which they are judged.
#[derive(Clone, Copy, Debug, PartialEq, Eq, Error)]
pub enum LayoutFaultKind {
    /// The padded size of a variable, or of the record variables up to it, is more than 2^63 - 4.
    #[error("TooLarge")]
    TooLarge,
    /// A variable begins before the header ends.
    #[error("InHeader")]
    InHeader,
    /// Two fixed variables, or two record variables in record 0, share a byte.
    #[error("Overlap")]
    Overlap,
    /// A record variable's slab in record 0 doesn't end by the end of that record.
    #[error("RecordWindow")]
    RecordWindow,
    /// A fixed variable doesn't end by the begin of the records.
    #[error("FixedAfterRecords")]
    FixedAfterRecords,
    /// A fixed variable, or a slab of the last record, doesn't end by the end of the file.
    #[error("Truncated")]
    Truncated,
}

/// The first rule that fails, and the offset in bytes of the begin field of the variable that breaks it.
#[derive(Clone, Copy, Debug, PartialEq, Eq, Error)]
#[error("{kind} at {offset}")]
pub struct LayoutFault {
    pub kind: LayoutFaultKind,
    pub offset: u64,
}

/// Why there are no sizes.
#[derive(Clone, Copy, Debug, PartialEq, Eq, Error)]
pub enum SizeError {
    /// The first variable, by its number, whose padded size, or the sum of those of the record
    /// variables up to it, is more than 2^63 - 4.
    #[error("TooLarge {0}")]
    TooLarge(usize),
    #[error("Memory")]
    Memory,
}

/// Why variables have no place.
#[derive(Clone, Copy, Debug, PartialEq, Eq, Error)]
pub enum PlaceError {
    #[error("{0}")]
    Fault(LayoutFault),
    #[error("Memory")]
    Memory,
}

impl<T: Drop> From<AllocFailed<T>> for SizeError {
    ghost from_gives = { λ _ e. e ≡ Memory };

    fn from(_e: AllocFailed<T>) -> SizeError {
        SizeError::Memory
    }
}

impl From<AllocError> for PlaceError {
    ghost from_gives = { λ _ e. e ≡ place_error.Memory };

    fn from(_e: AllocError) -> PlaceError {
        PlaceError::Memory
    }
}
