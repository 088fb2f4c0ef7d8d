//! Why a schema isn't built, or values aren't written.

ghost use Rattle.std.specs.Prelude.{◌≡◌};
ghost use Rattle.ncc_build.specs.declared.fault.WriteFault.TheVariants.{Memory};

use std::alloc::AllocError;
use thiserror::Error;

/// Why a call of a builder or a writer is refused. The building calls judge in this order, but that
/// sizes are judged before offsets.
#[derive(Clone, Copy, Debug, PartialEq, Eq, Error)]
pub enum WriteFault {
    /// The name breaks the rule of names, or has more than 256 bytes.
    #[error("BadName")]
    BadName,
    /// The name is that of another dimension, variable, global attribute, or attribute of the variable.
    #[error("DuplicateName")]
    DuplicateName,
    /// There is a record dimension already.
    #[error("TwoRecordDims")]
    TwoRecordDims,
    /// There is no dimension of this number.
    #[error("BadDimId")]
    BadDimId,
    /// The record dimension stands after another.
    #[error("RecordDimNotFirst")]
    RecordDimNotFirst,
    /// The version doesn't have the type.
    #[error("TypeForVersion")]
    TypeForVersion,
    /// A length, or a number of records, items, dimension numbers or values, is more than the version can tell.
    #[error("CountForVersion")]
    CountForVersion,
    /// A variable begins past what the version can tell.
    #[error("OffsetForVersion")]
    OffsetForVersion,
    /// A size is more than the version can tell, or the file is longer than 2^63 - 1.
    #[error("SizeForVersion")]
    SizeForVersion,
    /// The values are of another type than the variable.
    #[error("WrongType")]
    WrongType,
    /// There are more values than the slab still takes.
    #[error("TooManyValues")]
    TooManyValues,
    /// Values are still expected.
    #[error("Unfinished")]
    Unfinished,
    /// The sink failed in an earlier call.
    #[error("Failed")]
    Failed,
    /// No value is expected any more.
    #[error("Complete")]
    Complete,
    #[error("Device")]
    Device,
    #[error("Memory")]
    Memory,
}

impl From<AllocError> for WriteFault {
    ghost from_gives = { λ _ e. e ≡ Memory };

    fn from(_e: AllocError) -> WriteFault {
        WriteFault::Memory
    }
}
