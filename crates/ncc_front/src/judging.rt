//! The verdict on a file by its front and its length.

ghost use Rattle.std.specs.Prelude.{◌≡◌, ◌≤◌, ℕ, List, length, IfOk, IfErr, OnOk};
ghost use Rattle.ncc_layout.specs.Sizes.{AreSizes};
ghost use Rattle.ncc_check.specs.declared.fault.FileFault.TheVariants as faults;
ghost use Rattle.ncc_check.specs.Passes.{HasOwnElements};
ghost use Rattle.ncc_front.specs.Fronts.{IsFile, IsSaid};
ghost use Rattle.ncc_front.specs.Judging.{FindsOf, RefusesFront, JudgesFront, refusal_of_front, refusal_of_check};

use crate::reading::{FrontError, read_front};
use ncc_check::laws::passing_elements_are_apart;
use ncc_check::{FileFault, Note, Refusal, notes_of, placed_of, sizes_of};
use ncc_header::Header;
use ncc_header::laws::header_or_stop;
use ncc_layout::{Placed, Sizes};
use std::alloc::Global;

/// Why a file isn't known to pass.
#[derive(Clone, Copy, Debug, PartialEq, Eq)]
pub enum FrontRefusal {
    /// The file's first fault, whatever follows the front.
    Fault(FileFault),
    /// The front ends inside of the header's field at this offset, and more of the file decides.
    More(u64),
    Memory,
}

/// What was found in the front of a file that passes.
#[derive(Drop)]
pub struct Found {
    pub header: Header,
    pub sizes: Sizes,
    pub placed: Placed,
}

/// A file that passes: its header, its variables at their places, and its notes.
#[derive(Drop)]
pub struct Judgement {
    pub header: Header,
    pub placed: Placed,
    pub notes: Vec<Note>,
}

/// What a header that isn't read says of the file.
fn of_front(error: FrontError) -> FrontRefusal
    ensures { result ≡ refusal_of_front error }
{
    match error {
        FrontError::Fault(fault) => FrontRefusal::Fault(FileFault::Header(fault)),
        FrontError::More(at) => FrontRefusal::More(at),
        FrontError::Memory => FrontRefusal::Memory,
    }
}

/// What a layout that isn't found says of the file.
fn of_layout(refusal: Refusal) -> FrontRefusal
    ensures { result ≡ refusal_of_check refusal }
{
    match refusal {
        Refusal::Fault(fault) => FrontRefusal::Fault(fault),
        Refusal::Device => FrontRefusal::Memory,
        Refusal::Memory => FrontRefusal::Memory,
    }
}

/// The header of a file of this length that begins with these bytes, and its variables at their places; or
/// its first fault, or that more of the file is needed.
pub fn examine_front(
    alloc: Global,
    front: &[u8],
    file_length: u64,
    limit: u64,
) -> Result<Found, FrontRefusal>
    requires { length front.now ≤ file_length }
    ensures finds { IfOk result (λ x. FindsOf front.now file_length limit x.header x.placed) }
    ensures sizes { IfOk result (λ x. AreSizes x.header.schema x.sizes) }
    ensures refuses { IfErr result (RefusesFront front.now file_length limit) }
{
    header_or_stop();
    let header = match read_front(alloc, front, file_length, limit) {
        Ok(header) => header,
        Err(error) => return Err(of_front(error)),
    };
    let sizes = match sizes_of(alloc, &header) {
        Ok(sizes) => sizes,
        Err(refusal) => return Err(of_layout(refusal)),
    };
    match placed_of(alloc, &header, &sizes, file_length) {
        Ok(placed) => Ok(Found {
            header,
            sizes,
            placed,
        }),
        Err(refusal) => Err(of_layout(refusal)),
    }
}

/// Whether a file of this length that begins with these bytes passes, with exactly the notes that are due;
/// else its first fault, or that more of the file is needed to tell.
pub fn judge_front(
    alloc: Global,
    front: &[u8],
    file_length: u64,
    limit: u64,
) -> Result<Judgement, FrontRefusal>
    requires { length front.now ≤ file_length }
    ensures judges { JudgesFront front.now file_length limit result }
    ensures own { (bytes : List ℕ) → IsFile front.now file_length bytes → OnOk result (HasOwnElements bytes limit) }
{
    passing_elements_are_apart();
    let found = examine_front(alloc, front, file_length, limit)?;
    match notes_of(alloc, &found.header, &found.sizes) {
        Ok(notes) => Ok(Judgement {
            header: found.header,
            placed: found.placed,
            notes,
        }),
        Err(_) => Err(FrontRefusal::Memory),
    }
}
