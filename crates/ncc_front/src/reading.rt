//! Reading the header at the front of a file.

ghost use Rattle.std.specs.Prelude.{◌≡◌, ◌≤◌, ℕ, length, IsTrue, MatchBool};
ghost use Rattle.ncc_header.specs.Answers.{Stops};
ghost use Rattle.ncc_front.specs.Fronts.{ReadsFront, IsSaid};

use ncc_header::{Fault, FaultKind, Header, HeaderError, decode, laws};
use std::alloc::Global;

/// Why there is no header to give.
#[derive(Clone, Copy, Debug, PartialEq, Eq)]
pub enum FrontError {
    /// The header's first fault, whatever follows the front.
    Fault(Fault),
    /// The front ends inside of the header's field at this offset, and more of the file decides.
    More(u64),
    Memory,
}

/// What the fault of the front says of the file.
fn said_of(fault: Fault, front: &[u8], file_length: u64, limit: u64) -> FrontError
    requires stops { Stops front.now limit fault }
    requires there { length front.now ≤ file_length }
    ensures { IsSaid front.now file_length limit result }
{
    laws::header_or_stop();
    laws::stop_stays();
    laws::limit_covers();
    let length = front.len() as u64;
    if fault.kind == FaultKind::EndsEarly && length < file_length && length < limit {
        return FrontError::More(fault.offset);
    }
    FrontError::Fault(fault)
}

/// The header of a file of this length that begins with these bytes, or its fault; or that more of the
/// file is needed to tell.
pub fn read_front(
    alloc: Global,
    front: &[u8],
    file_length: u64,
    limit: u64,
) -> Result<Header, FrontError>
    requires { length front.now ≤ file_length }
    ensures { ReadsFront front.now file_length limit result }
{
    match decode(alloc, front, limit) {
        Ok(header) => Ok(header),
        Err(HeaderError::Fault(fault)) => Err(said_of(fault, front, file_length, limit)),
        Err(_) => Err(FrontError::Memory),
    }
}
