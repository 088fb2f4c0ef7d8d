//! How a field's value is refused, and the marks that fields show.

ghost use Rattle.std.specs.Prelude.{◌≡◌, ◌≤◌, ◌++◌, IfErr, OnOk};
ghost use Rattle.ncc_header.specs.declared.partial.Partial.{Partial as ThePartial};
ghost use Rattle.ncc_header.specs.Left.{left_of, come_of, first_at};
ghost use Rattle.ncc_header.specs.Marks.{all_zero, mark_of};
ghost use Rattle.ncc_header.specs.Steps.{label_of};

use crate::fault::{FaultKind, Wrong};
use crate::partial::Next;
use ncc_schema::Mark;
use std::alloc::AllocError;

/// Refuses a field's value, at the field.
pub fn refuse<T>(kind: FaultKind) -> Result<T, Wrong>
    ensures { result ≡ Err (record { back = 0; kind = kind }) }
{
    Err(Wrong { back: 0, kind })
}

/// Refuses a list's tag, 4 bytes before the number of its items.
pub fn refuse_tag<T>(kind: FaultKind) -> Result<T, Wrong>
    ensures { result ≡ Err (record { back = 4; kind = kind }) }
{
    Err(Wrong { back: 4, kind })
}

/// Is each byte zero?
pub fn are_zero(bytes: &[u8]) -> bool
    ensures { result ≡ all_zero bytes.now }
{
    for byte in bytes {
        if *byte != 0 {
            return false;
        }
    }
    true
}

/// Adds the mark of the next field, at the offset `at`, if these bytes of it show one.
pub fn push_mark(marks: &mut Vec<Mark>, next: Next, at: u64, bytes: &[u8]) -> Result<(), AllocError>
    ensures ok { OnOk result ((b : ThePartial) → marks.new.items
        ≡ marks.old.items ++ mark_of (label_of (left_of next b)) at (come_of next b ++ bytes.now)) }
    ensures memory { IfErr result (λ _. 12 ≤ first_at next) }
{
    match next {
        Next::NamePadding(_) | Next::AttrPadding(_, _) => {
            if !are_zero(bytes) {
                marks.push(Mark::Padding(at))?;
            }
        }
        Next::DimsCount(tag) | Next::AttrsCount(_, tag) | Next::VarsCount(tag) => {
            if tag != 0 && are_zero(bytes) {
                marks.push(Mark::TaggedEmpty(at.saturating_sub(4)))?;
            }
        }
        _ => {}
    }
    Ok(())
}
