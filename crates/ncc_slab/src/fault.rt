//! Why a selection is refused.

ghost use Rattle.std.specs.Prelude.{◌≡◌};
ghost use Rattle.ncc_slab.specs.declared.fault.SlabFault.TheVariants as faults;

use ncc_store::Device;
use std::alloc::AllocError;
use thiserror::Error;

/// Why there is no selection, in the order in which it is judged, or none of its values. A dimension is
/// told by its number.
#[derive(Clone, Copy, Debug, PartialEq, Eq, Error)]
pub enum SlabFault {
    /// There is no such variable.
    #[error("NoVariable")]
    NoVariable,
    /// A start, a count or a stride isn't given for each dimension, and for no more.
    #[error("RankMismatch")]
    RankMismatch,
    /// The stride along a dimension is 0.
    #[error("ZeroStride {0}")]
    ZeroStride(usize),
    /// The last index along a dimension isn't below its length or, where none is selected, the start is above it.
    #[error("Outside {0}")]
    Outside(usize),
    /// The store failed.
    #[error("Device")]
    Device,
    #[error("Memory")]
    Memory,
}

impl From<Device> for SlabFault {
    ghost from_gives = { λ _ e. e ≡ faults.Device };

    fn from(_e: Device) -> SlabFault {
        SlabFault::Device
    }
}

impl From<AllocError> for SlabFault {
    ghost from_gives = { λ _ e. e ≡ faults.Memory };

    fn from(_e: AllocError) -> SlabFault {
        SlabFault::Memory
    }
}
