//! A note joins others where it is due.

ghost use Rattle.std.specs.Prelude.{OnOk, IsOk, IsTrue};
ghost use Rattle.ncc_check.specs.Noting.{Adds, NoteIf};

use crate::note::{Note, NoteKind};
use std::alloc::AllocError;

/// Notes this, where it is due. Where it isn't, that takes no memory.
pub fn note_if(
    notes: &mut Vec<Note>,
    due: bool,
    kind: NoteKind,
    offset: u64,
) -> Result<(), AllocError>
    ensures notes { OnOk result (Adds (NoteIf (IsTrue due) kind offset) notes.old.items notes.new.items) }
    ensures none { ¬ IsTrue due → IsOk result }
{
    if due {
        notes.push(Note { kind, offset })?;
    }
    Ok(())
}
