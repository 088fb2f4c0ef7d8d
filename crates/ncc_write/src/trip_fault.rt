//! Why a dataset doesn't go through a file.

ghost use Rattle.std.specs.Prelude.{◌≡◌};
ghost use Rattle.ncc_write.specs.Trips.{of_write};
ghost use Rattle.ncc_write.specs.declared.trip_fault.TripFault.TheVariants as faults;

use ncc_build::WriteFault;
use std::alloc::AllocError;
use thiserror::Error;

/// Why a dataset doesn't go through a file.
#[derive(Clone, Copy, Debug, PartialEq, Eq, Error)]
pub enum TripFault {
    /// The header is longer than the limit.
    #[error("HeaderTooLong")]
    HeaderTooLong,
    /// There are more or fewer bytes of values than the schema has.
    #[error("WrongLength")]
    WrongLength,
    /// A call is refused, the report says something else than the schema, or values are read that weren't put. This is
    /// never answered.
    #[error("Differs")]
    Differs,
    /// Memory was refused. A sink in memory fails for no other reason.
    #[error("Memory")]
    Memory,
}

impl From<AllocError> for TripFault {
    ghost from_gives = { λ _ e. e ≡ faults.Memory };

    fn from(_e: AllocError) -> TripFault {
        TripFault::Memory
    }
}

/// What the fault of a writer is.
pub(crate) fn of_write(fault: WriteFault) -> TripFault
    ensures { result ≡ of_write fault }
{
    match fault {
        WriteFault::Device => TripFault::Memory,
        WriteFault::Memory => TripFault::Memory,
        _ => TripFault::Differs,
    }
}
