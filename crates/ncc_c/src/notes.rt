//! The notes of a file as rows.

ghost use Rattle.std.specs.Prelude.{◌≡◌, length, map, take};
ghost use Rattle.ncc_c.specs.Verdicts.{IsNoted, note_row};

use crate::kinds::of_note;
use crate::outcome::{Outcome, PASSES, of_refusal, outcome_of};
use ncc_check::Note;
use ncc_front::{FrontRefusal, Judgement};

/// A note: its kind, and the offset of the field that shows it.
#[repr(C)]
#[derive(Clone, Copy, Debug, PartialEq, Eq)]
pub struct NoteRow {
    pub kind: u32,
    pub reserved: u32,
    pub at: u64,
}

/// What `ncc_notes` answers: how many notes there are.
#[repr(C)]
#[derive(Clone, Copy, Debug, PartialEq, Eq)]
pub struct Noted {
    pub outcome: Outcome,
    pub notes: u64,
}

fn note_row(note: Note) -> NoteRow
    ensures { result ≡ note_row note }
{
    NoteRow {
        kind: of_note(note.kind),
        reserved: 0,
        at: note.offset,
    }
}

/// Puts the first notes, as many as there is room for.
fn put_rows(notes: &[Note], out: &mut [NoteRow])
    ensures rows { take (length notes.now) out.new ≡ take (length out.new) (map note_row notes.now) }
{
    let count = notes.len().min(out.len());
    for k in 0..count {
        out[k] = note_row(notes[k]);
    }
}

/// Puts the notes of an answer.
pub fn put_notes(answer: &Result<Judgement, FrontRefusal>, out: &mut [NoteRow]) -> Noted
    ensures { IsNoted answer.now out.new result }
{
    match answer {
        Ok(judgement) => {
            put_rows(judgement.notes.as_slice(), out);
            Noted {
                outcome: outcome_of(PASSES, 0, 0),
                notes: judgement.notes.len() as u64,
            }
        }
        Err(refusal) => Noted {
            outcome: of_refusal(*refusal),
            notes: 0,
        },
    }
}
