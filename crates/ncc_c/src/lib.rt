//! What C may call. The contracts in words, and the structures, stand in `include/ncc.h`.
#![tactic(auto)]

ghost use Rattle.std.specs.Prelude.{◌≡◌, ◌<◌, ◌≤◌, ℕ, List, drop, length, take, min};
ghost use Rattle.ncc_check.specs.Passes.{HasOwnElements};
ghost use Rattle.ncc_front.specs.Fronts.{IsFile};
ghost use Rattle.ncc_c.specs.Outcomes.{misused};
ghost use Rattle.ncc_c.specs.Opening.{Opens, TellsFile, without_numbers};
ghost use Rattle.ncc_c.specs.Planning.{PutsHeader, PutsPlaces, TellsPlan};
ghost use Rattle.ncc_c.specs.Recording.{TellsRecord, no_record};
ghost use Rattle.ncc_c.specs.Rows.{TellsIndex, no_rows};
ghost use Rattle.ncc_c.specs.Selecting.{TellsSteps, TellsStretches, slab_by};
ghost use Rattle.ncc_c.specs.Texts.{kind_text};
ghost use Rattle.ncc_c.specs.Verdicts.{Tells, TellsNotes, empty, no_notes};

mod describing;
mod index;
mod kinds;
pub mod laws;
mod notes;
mod opening;
mod outcome;
mod planning;
mod recording;
mod rows;
mod selecting;
mod stepping;
mod stretching;
mod verdict;

use index::{Indexed, put_index, without_rows};
use kinds::kind_text;
use ncc_check::laws::passing_elements_are_apart;
use ncc_front::{examine_front, judge_front};
use ncc_ranges::Stretch;
use notes::{NoteRow, Noted, put_notes};
use opening::{Opened, opened_by, without_numbers};
use outcome::{MEMORY, MISUSED, outcome_of};
use planning::{PlaceRow, Planned, plan_by, put_header, put_places};
use recording::{Recorded, put_record, without_record};
use rows::{AttrRow, DimRow, VarRow};
use selecting::slab_of;
use std::alloc::Global;
use stepping::{Stepped, put_steps, without_steps};
use stretching::{Stretched, put_stretches, without_stretches};
use verdict::{Verdict, numbers_of};

/// Judges a file of this length that begins with these bytes, with a header of at most `limit` bytes.
#[unsafe(no_mangle)]
pub extern "C" fn ncc_judge(
    alloc: Global,
    front: &[u8],
    file_length: u64,
    limit: u64,
    verdict: &mut Verdict,
)
    ensures tells { length front.now ≤ file_length → Tells front.now file_length limit verdict.new }
    ensures own { length front.now ≤ file_length → verdict.new.outcome.state ≡ 0 → (bytes : List ℕ)
        → IsFile front.now file_length bytes → HasOwnElements bytes limit }
    ensures misused { file_length < length front.now → verdict.new ≡ empty misused }
{
    if front.len() as u64 > file_length {
        *verdict = verdict::empty(outcome_of(MISUSED, 0, 0));
        return;
    }
    *verdict = numbers_of(&judge_front(alloc, front, file_length, limit));
}

/// Puts the notes of a file that passes, as many as there is room for.
#[unsafe(no_mangle)]
pub extern "C" fn ncc_notes(
    alloc: Global,
    front: &[u8],
    file_length: u64,
    limit: u64,
    notes: &mut [NoteRow],
    answer: &mut Noted,
)
    ensures tells { length front.now ≤ file_length → TellsNotes front.now file_length limit notes.new answer.new }
    ensures misused { file_length < length front.now → answer.new ≡ no_notes misused }
{
    if front.len() as u64 > file_length {
        *answer = Noted {
            outcome: outcome_of(MISUSED, 0, 0),
            notes: 0,
        };
        return;
    }
    *answer = put_notes(&judge_front(alloc, front, file_length, limit), notes);
}

/// Puts what the header of a file that passes says into rows, where there is room for all of them.
#[unsafe(no_mangle)]
pub extern "C" fn ncc_index(
    alloc: Global,
    front: &[u8],
    file_length: u64,
    limit: u64,
    dims: &mut [DimRow],
    attrs: &mut [AttrRow],
    vars: &mut [VarRow],
    ids: &mut [u64],
    answer: &mut Indexed,
)
    ensures tells { length front.now ≤ file_length
        → TellsIndex front.now file_length limit dims.new attrs.new vars.new ids.new answer.new }
    ensures misused { file_length < length front.now → answer.new ≡ no_rows misused }
{
    if front.len() as u64 > file_length {
        *answer = without_rows(outcome_of(MISUSED, 0, 0));
        return;
    }
    let found = examine_front(alloc, front, file_length, limit);
    *answer = put_index(&found, dims, attrs, vars, ids);
}

/// Puts the rows of `ncc_index`, and the numbers of `ncc_judge` but that of the notes.
#[unsafe(no_mangle)]
pub extern "C" fn ncc_read(
    alloc: Global,
    front: &[u8],
    file_length: u64,
    limit: u64,
    dims: &mut [DimRow],
    attrs: &mut [AttrRow],
    vars: &mut [VarRow],
    ids: &mut [u64],
    answer: &mut Opened,
)
    ensures tells { length front.now ≤ file_length
        → TellsFile front.now file_length limit dims.new attrs.new vars.new ids.new answer.new }
    ensures own { length front.now ≤ file_length → Opens answer.new → (bytes : List ℕ)
        → IsFile front.now file_length bytes → HasOwnElements bytes limit }
    ensures misused { file_length < length front.now → answer.new ≡ without_numbers (no_rows misused) }
{
    if front.len() as u64 > file_length {
        *answer = without_numbers(without_rows(outcome_of(MISUSED, 0, 0)));
        return;
    }
    passing_elements_are_apart();
    let found = examine_front(alloc, front, file_length, limit);
    let rows = put_index(&found, dims, attrs, vars, ids);
    *answer = opened_by(&found, rows);
}

/// Puts the steps of a selection of the variable with this row and these lengths.
#[unsafe(no_mangle)]
pub extern "C" fn ncc_steps(
    alloc: Global,
    var: &VarRow,
    shape: &[u64],
    record_size: u64,
    file_length: u64,
    start: &[u64],
    count: &[u64],
    stride: &[u64],
    steps: &mut [u64],
    answer: &mut Stepped,
)
    ensures { TellsSteps var.now shape.now record_size file_length (slab_by start.now count.now stride.now)
        steps.new answer.new }
{
    *answer = match slab_of(alloc, start, count, stride) {
        Ok(slab) => put_steps(alloc, var, shape, record_size, file_length, &slab, steps),
        Err(_) => without_steps(outcome_of(MEMORY, 0, 0)),
    };
}

/// Puts the stretches of a selection of the variable with this row and these lengths, after so many of its elements.
#[unsafe(no_mangle)]
pub extern "C" fn ncc_stretches(
    alloc: Global,
    var: &VarRow,
    shape: &[u64],
    record_size: u64,
    file_length: u64,
    start: &[u64],
    count: &[u64],
    stride: &[u64],
    first: u64,
    runs: &mut [Stretch],
    answer: &mut Stretched,
)
    ensures { TellsStretches var.now shape.now record_size file_length (slab_by start.now count.now stride.now)
        first runs.new answer.new }
{
    *answer = match slab_of(alloc, start, count, stride) {
        Ok(slab) => put_stretches(
            alloc,
            var,
            shape,
            record_size,
            file_length,
            &slab,
            first,
            runs,
        ),
        Err(_) => without_stretches(outcome_of(MEMORY, 0, 0)),
    };
}

/// Puts the bytes of the number of records with one more, and tells where that record goes.
#[unsafe(no_mangle)]
pub extern "C" fn ncc_record(
    alloc: Global,
    front: &[u8],
    file_length: u64,
    limit: u64,
    count: &mut [u8],
    answer: &mut Recorded,
)
    ensures tells { length front.now ≤ file_length → TellsRecord front.now file_length limit count.new answer.new }
    ensures misused { file_length < length front.now → answer.new ≡ no_record misused }
{
    if front.len() as u64 > file_length {
        *answer = without_record(outcome_of(MISUSED, 0, 0));
        return;
    }
    let found = examine_front(alloc, front, file_length, limit);
    *answer = put_record(&found, count);
}

/// Puts the places of the variables of a file that is to be written.
#[unsafe(no_mangle)]
pub extern "C" fn ncc_plan(
    alloc: Global,
    version: u64,
    records: u64,
    text: &[u8],
    dims: &[DimRow],
    attrs: &[AttrRow],
    vars: &[VarRow],
    ids: &[u64],
    places: &mut [PlaceRow],
    answer: &mut Planned,
)
    ensures { TellsPlan version records text.now dims.now attrs.now vars.now ids.now PutsPlaces places.new answer.new }
{
    let plan = plan_by(alloc, version, records, text, dims, attrs, vars, ids);
    *answer = put_places(&plan, places);
}

/// Puts the header's bytes of a file that is to be written.
#[unsafe(no_mangle)]
pub extern "C" fn ncc_encode(
    alloc: Global,
    version: u64,
    records: u64,
    text: &[u8],
    dims: &[DimRow],
    attrs: &[AttrRow],
    vars: &[VarRow],
    ids: &[u64],
    header: &mut [u8],
    answer: &mut Planned,
)
    ensures { TellsPlan version records text.now dims.now attrs.now vars.now ids.now PutsHeader header.new answer.new }
{
    let plan = plan_by(alloc, version, records, text, dims, attrs, vars, ids);
    *answer = put_header(&plan, header);
}

/// Puts the name of a kind of fault or note, as much of it as there is room for and nothing after it, and tells its
/// length.
#[unsafe(no_mangle)]
pub extern "C" fn ncc_fault_text(kind: u32, text: &mut [u8]) -> usize
    ensures text { take (min (length (kind_text kind)) (length text.new)) text.new
        ≡ take (length text.new) (kind_text kind) }
    ensures rest { drop (min (length (kind_text kind)) (length text.old)) text.new
        ≡ drop (min (length (kind_text kind)) (length text.old)) text.old }
    ensures length { result ≡ length (kind_text kind) }
{
    let name = kind_text(kind).as_bytes();
    let count = name.len().min(text.len());
    for k in 0..count {
        text[k] = name[k];
    }
    name.len()
}
