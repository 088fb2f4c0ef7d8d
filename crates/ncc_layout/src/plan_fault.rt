//! Why a schema can't be placed.

ghost use Rattle.std.specs.Prelude.{◌≡◌};
ghost use Rattle.ncc_layout.specs.declared.plan_fault.PlanFault.TheVariants.{Memory};
ghost use Rattle.ncc_layout.specs.Plans.{plan_fault};

use crate::fault::SizeError;
use std::alloc::AllocError;
use thiserror::Error;

/// Why there is no standard placement, in the order in which it is judged.
#[derive(Clone, Copy, Debug, PartialEq, Eq, Error)]
pub enum PlanFault {
    /// A size is more than the version can tell, or the file is longer than 2^63 - 1.
    #[error("SizeForVersion")]
    SizeForVersion,
    /// A variable begins past what the version can tell.
    #[error("OffsetForVersion")]
    OffsetForVersion,
    #[error("Memory")]
    Memory,
}

impl From<SizeError> for PlanFault {
    ghost from_gives = { λ from e. e ≡ plan_fault from };

    fn from(e: SizeError) -> PlanFault {
        match e {
            SizeError::TooLarge(_) => PlanFault::SizeForVersion,
            SizeError::Memory => PlanFault::Memory,
        }
    }
}

impl From<AllocError> for PlanFault {
    ghost from_gives = { λ _ e. e ≡ Memory };

    fn from(_e: AllocError) -> PlanFault {
        PlanFault::Memory
    }
}
