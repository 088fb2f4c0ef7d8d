//! Why there are no places.

ghost use Rattle.std.specs.Prelude.{◌≡◌};
ghost use Rattle.ncc_slab.specs.declared.fault.SlabFault.TheVariants as slabs;
ghost use Rattle.ncc_ranges.specs.declared.fault.RangeFault.TheVariants as faults;

use ncc_slab::SlabFault;
use std::alloc::AllocError;
use thiserror::Error;

/// Why there are no places for a selection.
#[derive(Clone, Copy, Debug, PartialEq, Eq, Error)]
pub enum RangeFault {
    /// The selection is refused, or memory.
    #[error("{0}")]
    Refused(SlabFault),
    /// The variable's numbers can't be those of a file of this length.
    #[error("NotInFile")]
    NotInFile,
}

impl From<AllocError> for RangeFault {
    ghost from_gives = { λ _ e. e ≡ faults.Refused slabs.Memory };

    fn from(_e: AllocError) -> RangeFault {
        RangeFault::Refused(SlabFault::Memory)
    }
}
