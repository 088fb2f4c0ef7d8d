//! The notes of a header.

ghost use Rattle.std.specs.Prelude.{◌≡◌, ℕ, List, IfOk};
ghost use Rattle.ncc_header.specs.Answers.{Begins};
ghost use Rattle.ncc_layout.specs.Sizes.{AreSizes};
ghost use Rattle.ncc_check.specs.Notes.{AreNotes};

mod counting;
mod item;
mod keys;
mod names;
mod naming;
mod ordering;
mod pairs;
mod placing;
mod pushing;
mod slots;

use crate::note::Note;
use crate::notes::counting::{note_large_count, note_marks};
use crate::notes::naming::{note_dims, note_globals, note_vars};
use crate::notes::ordering::in_order;
use crate::notes::placing::note_places;
use ncc_header::Header;
use ncc_header::laws::length_is_canonical;
use ncc_layout::Sizes;
use ncc_schema::laws::name_is_there;
use std::alloc::{AllocError, Global};

/// Exactly the notes that are due of a header with variables of these sizes, by offset, then in the
/// order of the kinds.
pub fn notes_of(alloc: Global, header: &Header, sizes: &Sizes) -> Result<Vec<Note>, AllocError>
    requires begun { (input : List ℕ) × (limit : ℕ) × Begins input limit header.now }
    requires sizes { AreSizes header.now.schema sizes.now }
    ensures { IfOk result (λ notes. AreNotes header.now notes.items) }
{
    // A number of 64 bits, so that the offset of no name is cut.
    let _length = header.length;
    length_is_canonical();
    name_is_there();
    let mut notes = Vec::new(alloc);
    note_marks(header.marks.as_slice(), &mut notes)?;
    note_large_count(&header.schema, &mut notes)?;
    note_dims(alloc, &header.schema, &mut notes)?;
    note_globals(alloc, &header.schema, &mut notes)?;
    note_vars(alloc, &header.schema, &mut notes)?;
    note_places(header, sizes, &mut notes)?;
    Ok(in_order(notes))
}
