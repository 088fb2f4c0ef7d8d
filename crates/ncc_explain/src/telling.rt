//! What is told of a file: its lines, each fault and note with what stands behind it.

ghost use Rattle.std.specs.Prelude.{◌≡◌, ◌<◌, ◌++◌, ◌==◌, length, position, IfOk, OnOk};
ghost use Rattle.std.specs.List.{flat_map};
ghost use Rattle.ncc_schema.specs.Schema.{Legal, places_of};
ghost use Rattle.ncc_layout.specs.Sizes.{AreSizes};
ghost use Rattle.ncc_check.specs.Examining.{HasSizes};
ghost use Rattle.ncc_check.specs.FromStore.{IsBegun};
ghost use Rattle.ncc_parts.specs.Breaking.{broken_by};
ghost use Rattle.ncc_parts.specs.Parts.{ends_from, parts_of};
ghost use Rattle.ncc_explain.specs.Words.{broken_lines, broken_part_lines, note_part_lines, rule_line, told_header_fault, told_layout_fault, told_note, told_report};

use crate::adding::push_words;
use crate::numbers::{push_broken, push_note_numbers, push_site};
use crate::parts::{push_part_line, push_place};
use crate::rules::{header_rule, layout_rule, note_rule};
use crate::site::Site;
use ncc_check::{Checked, Note, NoteKind, Unplaced};
use ncc_header::{Fault, Header};
use ncc_layout::{LayoutFault, Sizes};
use ncc_lines::{fault_name, layout_name, note_name, push_at, push_ok};
use ncc_parts::{Part, Piece, broken_by, part_of, pieces_of, variable_at};
use std::alloc::{AllocError, Global};

/// Adds the line of a rule.
#[tactic(auto, unfolding(crate::specs::Words::rule_line))]
fn push_rule(out: &mut Vec<u8>, words: &str) -> Result<(), AllocError>
    ensures { OnOk result (out.new.items ≡ out.old.items ++ rule_line words.now) }
{
    push_words(out, b"    ", words)
}

/// Adds the part that a note is in, and its numbers.
fn push_note_part(
    out: &mut Vec<u8>,
    header: &Header,
    sizes: &Sizes,
    kind: NoteKind,
    part: Option<Part>,
) -> Result<(), AllocError>
    requires { AreSizes header.now.schema sizes.now }
    ensures { OnOk result (out.new.items ≡ out.old.items ++ note_part_lines header.now kind part) }
{
    let Some(part) = part else {
        return Ok(());
    };
    push_part_line(out, &header.schema, part)?;
    push_note_numbers(out, header, sizes, kind, part)
}

/// Adds what is told of a note.
fn push_note(
    out: &mut Vec<u8>,
    header: &Header,
    sizes: &Sizes,
    pieces: &[Piece],
    note: &Note,
) -> Result<(), AllocError>
    requires sizes { AreSizes header.now.schema sizes.now }
    requires pieces { pieces.now ≡ ends_from 0 (parts_of header.now.schema) }
    ensures { OnOk result (out.new.items ≡ out.old.items ++ told_note header.now note.now) }
{
    push_at(out, b"note ", note_name(note.kind), note.offset)?;
    push_note_part(out, header, sizes, note.kind, part_of(pieces, note.offset))?;
    push_rule(out, note_rule(note.kind))
}

/// Adds what is told of each note.
fn push_notes(
    out: &mut Vec<u8>,
    header: &Header,
    sizes: &Sizes,
    pieces: &[Piece],
    notes: &[Note],
) -> Result<(), AllocError>
    requires sizes { AreSizes header.now.schema sizes.now }
    requires pieces { pieces.now ≡ ends_from 0 (parts_of header.now.schema) }
    ensures { OnOk result (out.new.items ≡ out.old.items ++ flat_map (told_note header.now) notes.now) }
{
    for note in notes {
        push_note(out, header, sizes, pieces, note)?;
    }
    Ok(())
}

/// What is told of a file that passes.
pub fn told_report(alloc: Global, found: &Checked) -> Result<Vec<u8>, AllocError>
    requires begun { IsBegun found.now.header }
    requires sizes { AreSizes found.now.header.schema found.now.sizes }
    ensures { IfOk result (λ v. v.items ≡ told_report found.now.header found.now.report) }
{
    let (header, sizes) = (&found.header, &found.sizes);
    let mut out = Vec::new(alloc);
    push_ok(&mut out, &found.report)?;
    if found.report.notes.is_empty() {
        return Ok(out);
    }
    let pieces = pieces_of(alloc, header)?;
    push_notes(
        &mut out,
        header,
        sizes,
        &pieces,
        found.report.notes.as_slice(),
    )?;
    Ok(out)
}

/// Adds the numbers by which the layout rule fails for a variable, where the sizes are known.
fn push_broken_by(
    out: &mut Vec<u8>,
    header: &Header,
    sizes: &Option<Sizes>,
    file_length: u64,
    fault: LayoutFault,
    number: usize,
) -> Result<(), AllocError>
    requires legal { Legal header.now.schema (places_of header.now.places) }
    requires sizes { HasSizes header.now fault.kind sizes.now }
    requires there { number < length header.now.schema.vars }
    ensures { OnOk result (out.new.items
        ≡ out.old.items ++ broken_lines header.now.schema (broken_by header.now file_length fault.kind number)) }
{
    let Some(sizes) = sizes else {
        return Ok(());
    };
    match broken_by(header, sizes, file_length, fault.kind, number) {
        Some(broken) => push_broken(out, &header.schema, broken),
        None => Ok(()),
    }
}

/// Adds the variable that has a layout fault, and the numbers of it.
fn push_broken_part(out: &mut Vec<u8>, found: &Unplaced) -> Result<(), AllocError>
    requires legal { Legal found.now.header.schema (places_of found.now.header.places) }
    requires sizes { HasSizes found.now.header found.now.fault.kind found.now.sizes }
    ensures { OnOk result (out.new.items ≡ out.old.items ++ broken_part_lines found.now.header found.now.file_length
        found.now.fault (position (λ p. p.begin_at == found.now.fault.offset) found.now.header.places)) }
{
    let header = &found.header;
    let Some(number) = variable_at(header.places.as_slice(), found.fault.offset) else {
        return Ok(());
    };
    push_part_line(out, &header.schema, Part::Place(number))?;
    push_broken_by(
        out,
        header,
        &found.sizes,
        found.file_length,
        found.fault,
        number,
    )
}

/// What is told of a file whose layout has a fault.
pub fn told_layout_fault(alloc: Global, found: &Unplaced) -> Result<Vec<u8>, AllocError>
    requires legal { Legal found.now.header.schema (places_of found.now.header.places) }
    requires sizes { HasSizes found.now.header found.now.fault.kind found.now.sizes }
    ensures { IfOk result (λ v. v.items
        ≡ told_layout_fault found.now.header found.now.file_length found.now.fault) }
{
    let mut out = Vec::new(alloc);
    push_at(
        &mut out,
        b"fault ",
        layout_name(found.fault.kind),
        found.fault.offset,
    )?;
    push_broken_part(&mut out, found)?;
    push_rule(&mut out, layout_rule(found.fault.kind))?;
    Ok(out)
}

/// What is told of a file whose header has a fault.
pub fn told_header_fault(
    alloc: Global,
    limit: u64,
    fault: Fault,
    site: &Site,
) -> Result<Vec<u8>, AllocError>
    ensures { IfOk result (λ v. v.items ≡ told_header_fault limit fault site.now) }
{
    let mut out = Vec::new(alloc);
    push_at(&mut out, b"fault ", fault_name(fault.kind), fault.offset)?;
    push_place(&mut out, &site.place)?;
    push_site(&mut out, fault.kind, limit, site)?;
    push_rule(&mut out, header_rule(fault.kind))?;
    Ok(out)
}
