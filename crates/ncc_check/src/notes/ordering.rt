//! Notes in their order, each once.

ghost use Rattle.std.specs.Prelude.{◌≡◌};
ghost use Rattle.ncc_check.specs.Notes.{rank};
ghost use Rattle.ncc_check.specs.Noting.{SameInOrder, key_of};

use crate::note::{Note, NoteKind};

fn rank(kind: NoteKind) -> u128
    ensures { result ≡ rank kind }
{
    match kind {
        NoteKind::VsizeField => 1,
        NoteKind::HeaderPadding => 2,
        NoteKind::TaggedEmpty => 3,
        NoteKind::NameRule => 4,
        NoteKind::DuplicateName => 5,
        NoteKind::UnalignedBegin => 6,
        NoteKind::Order => 7,
        NoteKind::LargeCount => 8,
    }
}

/// A number that orders notes by offset, and at one offset by kind.
fn key(note: &Note) -> u128
    ensures { result ≡ key_of note.now }
{
    note.offset as u128 * 16 + rank(note.kind)
}

/// The same notes in their order, each once, in the memory that held them.
pub fn in_order(notes: Vec<Note>) -> Vec<Note>
    ensures { SameInOrder notes.items result.items }
{
    let mut ordered = notes;
    ordered.sort_unstable_by_key(|n| key(n));
    ordered.dedup();
    ordered
}
