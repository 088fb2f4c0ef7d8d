//! The notes on numbers, and on the spelling of the header.

ghost use Rattle.std.specs.Prelude.{◌≡◌, OnOk, IsTrue, ◌↔◌, length};
ghost use Rattle.ncc_schema.specs.Header.{canon_dim};
ghost use Rattle.ncc_check.specs.Notes.{HasLargeCount};
ghost use Rattle.ncc_check.specs.Noting.{Adds, Below, LargeCountNote, LargeLengthNote, MarkNote, dim_names, note_of_mark, offsets_from};

use crate::note::{Note, NoteKind};
use crate::notes::pushing::note_if;
use ncc_header::{Count, Dim, Mark, Schema, Version};
use ncc_schema::{dim_size, limit_of_counts, name_size};
use std::alloc::AllocError;

/// Where the number of records is.
const NUMRECS_AT: u64 = 4;

/// The note on a mark.
fn note_of(mark: Mark) -> Note
    ensures { result ≡ note_of_mark mark }
{
    match mark {
        Mark::Padding(offset) => Note {
            kind: NoteKind::HeaderPadding,
            offset,
        },
        Mark::TaggedEmpty(offset) => Note {
            kind: NoteKind::TaggedEmpty,
            offset,
        },
    }
}

/// Notes the marks of a header.
pub fn note_marks(marks: &[Mark], notes: &mut Vec<Note>) -> Result<(), AllocError>
    ensures { OnOk result (Adds (Below (MarkNote marks.now) (length marks.now)) notes.old.items notes.new.items) }
{
    for mark in marks {
        let note = note_of(*mark);
        note_if(notes, true, note.kind, note.offset)?;
    }
    Ok(())
}

/// Whether the number of records is known and has its top bit set.
fn is_large(schema: &Schema) -> bool
    ensures { IsTrue result ↔ HasLargeCount schema.now schema.now.count }
{
    match schema.count {
        Count::Known(number) => number >= limit_of_counts(schema.version),
        Count::Streaming => false,
    }
}

/// Notes a large number of records.
pub fn note_large_count(schema: &Schema, notes: &mut Vec<Note>) -> Result<(), AllocError>
    ensures { OnOk result (Adds (LargeCountNote schema.now) notes.old.items notes.new.items) }
{
    let large = is_large(schema);
    note_if(notes, large, NoteKind::LargeCount, NUMRECS_AT)?;
    Ok(())
}

/// Notes the dimensions whose length has its top bit set. The first dimension of the list is at this offset.
pub fn note_large_lengths(
    version: Version,
    dims: &[Dim],
    start: u64,
    notes: &mut Vec<Note>,
) -> Result<(), AllocError>
    ensures { OnOk result (Adds
        (Below (LargeLengthNote version dims.now (dim_names dims.now) (offsets_from (canon_dim version) start dims.now))
        (length dims.now))
        notes.old.items notes.new.items) }
{
    let limit = limit_of_counts(version);
    let mut at = start;
    for dim in dims {
        let length_at = at.saturating_add(name_size(version, dim.name.as_slice()));
        note_if(notes, dim.length >= limit, NoteKind::LargeCount, length_at)?;
        at = at.saturating_add(dim_size(version, dim));
    }
    Ok(())
}
