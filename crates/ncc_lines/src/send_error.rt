//! What keeps a text from going out.

ghost use Rattle.std.specs.Prelude.{◌≡◌};
ghost use Rattle.ncc_lines.specs.declared.send_error.SendError.TheVariants as errors;

use ncc_header::Device;
use std::alloc::{AllocError, AllocFailed};

/// What kept a text from going out.
#[derive(Clone, Copy, Debug, PartialEq, Eq)]
pub enum SendError {
    Device,
    Memory,
}

impl From<Device> for SendError {
    ghost from_gives = { λ _ e. e ≡ errors.Device };

    fn from(_e: Device) -> SendError {
        SendError::Device
    }
}

impl From<AllocError> for SendError {
    ghost from_gives = { λ _ e. e ≡ errors.Memory };

    fn from(_e: AllocError) -> SendError {
        SendError::Memory
    }
}

impl<T: Drop> From<AllocFailed<T>> for SendError {
    ghost from_gives = { λ _ e. e ≡ errors.Memory };

    fn from(_e: AllocFailed<T>) -> SendError {
        SendError::Memory
    }
}
