//! Why a header could not be read.

ghost use Rattle.std.specs.Prelude.{◌≡◌};
ghost use Rattle.ncc_header.specs.declared.fault.HeaderError.TheVariants as errors;
ghost use Rattle.ncc_header.specs.declared.fault.StepError.TheVariants as steps;

use ncc_schema::Device;
use std::alloc::{AllocError, AllocFailed};
use thiserror::Error;

/// What is wrong with a header.
#[derive(Clone, Copy, Debug, PartialEq, Eq, Error)]
pub enum FaultKind {
    /// The file doesn't begin with the letters CDF.
    #[error("BadMagic")]
    BadMagic,
    /// The byte after the letters is neither 1, 2 nor 5.
    #[error("BadVersion")]
    BadVersion,
    /// The top bit of a number of items is set, or in CDF-5 that of a length.
    #[error("NegativeCount")]
    NegativeCount,
    /// A list's tag is neither zero nor its own, or it is zero and the list has items.
    #[error("BadTag")]
    BadTag,
    /// A type's code that the version doesn't have.
    #[error("BadType")]
    BadType,
    /// A second dimension of length 0.
    #[error("TwoRecordDims")]
    TwoRecordDims,
    /// A dimension's number that isn't below the number of dimensions.
    #[error("BadDimId")]
    BadDimId,
    /// A variable has the record dimension in another place than the first.
    #[error("RecordDimNotFirst")]
    RecordDimNotFirst,
    /// The top bit of a variable's offset is set.
    #[error("NegativeOffset")]
    NegativeOffset,
    /// A field ends past the limit of the header's length.
    #[error("HeaderTooLong")]
    HeaderTooLong,
    /// The input ends inside a field.
    #[error("EndsEarly")]
    EndsEarly,
}

/// The first fault, and the offset in bytes of the field that has it.
#[derive(Clone, Copy, Debug, PartialEq, Eq, Error)]
#[error("{kind} at {offset}")]
pub struct Fault {
    pub kind: FaultKind,
    pub offset: u64,
}

/// Why there is no header to give.
#[derive(Clone, Copy, Debug, PartialEq, Eq, Error)]
pub enum HeaderError {
    #[error("{0}")]
    Fault(Fault),
    #[error("Device")]
    Device,
    #[error("Memory")]
    Memory,
}

/// What is wrong with a field's value: the fault is told so many bytes before the field.
#[derive(Clone, Copy, Debug, PartialEq, Eq)]
pub struct Wrong {
    pub back: u64,
    pub kind: FaultKind,
}

/// Why the next field is not taken.
#[derive(Clone, Copy, Debug, PartialEq, Eq)]
pub enum StepError {
    Memory,
    Wrong(Wrong),
}

impl From<AllocError> for HeaderError {
    ghost from_gives = { λ _ e. e ≡ errors.Memory };

    fn from(_e: AllocError) -> HeaderError {
        HeaderError::Memory
    }
}

impl<T: Drop> From<AllocFailed<T>> for HeaderError {
    ghost from_gives = { λ _ e. e ≡ errors.Memory };

    fn from(_e: AllocFailed<T>) -> HeaderError {
        HeaderError::Memory
    }
}

impl From<Device> for HeaderError {
    ghost from_gives = { λ _ e. e ≡ errors.Device };

    fn from(_e: Device) -> HeaderError {
        HeaderError::Device
    }
}

impl<T: Drop> From<AllocFailed<T>> for StepError {
    ghost from_gives = { λ _ e. e ≡ steps.Memory };

    fn from(_e: AllocFailed<T>) -> StepError {
        StepError::Memory
    }
}

impl From<AllocError> for StepError {
    ghost from_gives = { λ _ e. e ≡ steps.Memory };

    fn from(_e: AllocError) -> StepError {
        StepError::Memory
    }
}

impl From<Wrong> for StepError {
    ghost from_gives = { λ w e. e ≡ steps.Wrong w };

    fn from(wrong: Wrong) -> StepError {
        StepError::Wrong(wrong)
    }
}
