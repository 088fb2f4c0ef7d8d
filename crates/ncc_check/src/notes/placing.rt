//! The notes on the places of variables.

ghost use Rattle.std.specs.Prelude.{◌≡◌, ◌⊎◌, OnOk, length, max, if◌then◌else◌};
ghost use Rattle.ncc_schema.specs.Schema.{LegalDims};
ghost use Rattle.ncc_layout.specs.Sizes.{AreSizes};
ghost use Rattle.ncc_check.specs.Noting.{Adds, Below, PlaceNotes, PlaceNotesAt, greatest_of, kinds_of};

use crate::note::{Note, NoteKind};
use crate::notes::pushing::note_if;
use ncc_header::{Header, VarPlace, Version};
use ncc_layout::{Sizes, vsize_word};
use ncc_schema::is_record_var;
use std::alloc::AllocError;

/// The greatest begin so far of each kind of variable, 0 where there is none.
#[derive(Clone, Copy)]
struct Greatest {
    fixed: u64,
    records: u64,
}

/// The greatest begin of this kind.
fn greatest_of(greatest: Greatest, is_record: bool) -> u64
    ensures { result ≡ greatest_of greatest is_record }
{
    if is_record {
        greatest.records
    } else {
        greatest.fixed
    }
}

/// With a begin of this kind.
fn with_begin(greatest: Greatest, is_record: bool, begin: u64) -> Greatest
    ensures fixed { result.fixed ≡ (if is_record then greatest.fixed else max greatest.fixed begin) }
    ensures records { result.records ≡ (if is_record then max greatest.records begin else greatest.records) }
{
    if is_record {
        return Greatest {
            fixed: greatest.fixed,
            records: greatest.records.max(begin),
        };
    }
    Greatest {
        fixed: greatest.fixed.max(begin),
        records: greatest.records,
    }
}

/// Notes what is due of a place, by the variable's padded size and the greatest begin before it.
fn note_place(
    version: Version,
    place: VarPlace,
    rounded: u64,
    greatest: u64,
    notes: &mut Vec<Note>,
) -> Result<(), AllocError>
    ensures { OnOk result (Adds (PlaceNotes version place rounded greatest) notes.old.items notes.new.items) }
{
    let other = place.vsize != vsize_word(version, rounded);
    let vsize_at = place.begin_at.saturating_sub(version.count_width() as u64);
    note_if(notes, other, NoteKind::VsizeField, vsize_at)?;
    let unaligned = place.begin % 4 != 0;
    note_if(notes, unaligned, NoteKind::UnalignedBegin, place.begin_at)?;
    let swapped = place.begin < greatest;
    note_if(notes, swapped, NoteKind::Order, place.begin_at)?;
    Ok(())
}

/// Notes what is due of the places of all variables.
pub fn note_places(header: &Header, sizes: &Sizes, notes: &mut Vec<Note>) -> Result<(), AllocError>
    requires number { length header.now.places ≡ length header.now.schema.vars }
    requires sizes { length sizes.now.rounded ≡ length header.now.schema.vars }
    ensures { OnOk result (Adds
        (Below
        (PlaceNotesAt header.now.schema.version (kinds_of header.now.schema) sizes.now.rounded header.now.places)
        (length header.now.places))
        notes.old.items notes.new.items) }
{
    let dims = header.schema.dims.as_slice();
    let vars = header.schema.vars.as_slice();
    let places = header.places.as_slice();
    let rounded = sizes.rounded.as_slice();
    let mut greatest = Greatest {
        fixed: 0,
        records: 0,
    };
    for i in 0..places.len() {
        let is_record = is_record_var(dims, &vars[i]);
        let before = greatest_of(greatest, is_record);
        note_place(header.schema.version, places[i], rounded[i], before, notes)?;
        greatest = with_begin(greatest, is_record, places[i].begin);
    }
    Ok(())
}
