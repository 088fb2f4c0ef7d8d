//! What a call came to, by numbers.

ghost use Rattle.std.specs.Prelude.{◌≡◌};
ghost use Rattle.ncc_c.specs.Outcomes.{outcome, of_append, of_refusal, of_slab_fault, of_range, of_write_fault};

use crate::kinds::{of_fault, offset_of};
use ncc_build::WriteFault;
use ncc_check::AppendError;
use ncc_front::FrontRefusal;
use ncc_ranges::RangeFault;
use ncc_slab::SlabFault;

/// It passed.
pub const PASSES: u32 = 0;

/// The file has a fault.
pub const FAULT: u32 = 1;

/// More of the file is needed.
pub const MORE: u32 = 2;

/// A request for memory was refused.
pub const MEMORY: u32 = 3;

/// The arguments can't be.
pub const MISUSED: u32 = 4;

/// The selection is refused.
pub const REFUSED: u32 = 5;

/// The caller's arrays are too short.
pub const NO_ROOM: u32 = 6;

/// The first fields of each answer: the state, the kind of a fault or refusal, and the offset or dimension of it.
#[repr(C)]
#[derive(Clone, Copy, Debug, PartialEq, Eq)]
pub struct Outcome {
    pub state: u32,
    pub kind: u32,
    pub at: u64,
}

pub fn outcome_of(state: u32, kind: u32, at: u64) -> Outcome
    ensures { result ≡ outcome state kind at }
{
    Outcome { state, kind, at }
}

/// Why a file isn't known to pass.
pub fn of_refusal(refusal: FrontRefusal) -> Outcome
    ensures { result ≡ of_refusal refusal }
{
    match refusal {
        FrontRefusal::Fault(fault) => outcome_of(FAULT, of_fault(fault), offset_of(fault)),
        FrontRefusal::More(at) => outcome_of(MORE, 0, at),
        FrontRefusal::Memory => outcome_of(MEMORY, 0, 0),
    }
}

/// Why a selection is refused.
pub fn of_slab_fault(fault: SlabFault) -> Outcome
    ensures { result ≡ of_slab_fault fault }
{
    match fault {
        SlabFault::NoVariable => outcome_of(REFUSED, 61, 0),
        SlabFault::RankMismatch => outcome_of(REFUSED, 62, 0),
        SlabFault::ZeroStride(k) => outcome_of(REFUSED, 63, k as u64),
        SlabFault::Outside(k) => outcome_of(REFUSED, 64, k as u64),
        SlabFault::Device => outcome_of(MEMORY, 0, 0),
        SlabFault::Memory => outcome_of(MEMORY, 0, 0),
    }
}

/// Why there are no places.
pub fn of_range(fault: RangeFault) -> Outcome
    ensures { result ≡ of_range fault }
{
    match fault {
        RangeFault::Refused(fault) => of_slab_fault(fault),
        RangeFault::NotInFile => outcome_of(MISUSED, 0, 0),
    }
}

/// Why a record can't be added. The file's front alone never makes it Reopen, WrongValues or Device.
pub fn of_append(error: AppendError) -> Outcome
    ensures { result ≡ of_append error }
{
    match error {
        AppendError::NoRecordVariable => outcome_of(REFUSED, 71, 0),
        AppendError::NotPacked => outcome_of(REFUSED, 72, 0),
        AppendError::Streaming => outcome_of(REFUSED, 73, 0),
        AppendError::CountFull => outcome_of(REFUSED, 74, 0),
        AppendError::Memory => outcome_of(MEMORY, 0, 0),
        AppendError::Reopen | AppendError::WrongValues(_) | AppendError::Device => {
            outcome_of(MISUSED, 0, 0)
        }
    }
}

/// Why a schema can't be written. A schema alone is never refused for values or a device.
pub fn of_write_fault(fault: WriteFault) -> Outcome
    ensures { result ≡ of_write_fault fault }
{
    match fault {
        WriteFault::TwoRecordDims => outcome_of(REFUSED, 6, 0),
        WriteFault::BadDimId => outcome_of(REFUSED, 7, 0),
        WriteFault::RecordDimNotFirst => outcome_of(REFUSED, 8, 0),
        WriteFault::DuplicateName => outcome_of(REFUSED, 45, 0),
        WriteFault::BadName => outcome_of(REFUSED, 81, 0),
        WriteFault::TypeForVersion => outcome_of(REFUSED, 82, 0),
        WriteFault::CountForVersion => outcome_of(REFUSED, 83, 0),
        WriteFault::OffsetForVersion => outcome_of(REFUSED, 84, 0),
        WriteFault::SizeForVersion => outcome_of(REFUSED, 85, 0),
        WriteFault::Memory => outcome_of(MEMORY, 0, 0),
        _ => outcome_of(MISUSED, 0, 0),
    }
}
