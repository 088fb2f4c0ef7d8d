//! What is told of a file, as the members of an object.

ghost use Rattle.std.specs.Prelude.{◌≡◌, ◌<◌, ◌++◌, ◌==◌, IfOk, OnOk, length, option_map, position};
ghost use Rattle.std.specs.List.{flat_map};
ghost use Rattle.json.specs.Print.{print};
ghost use Rattle.ncc_schema.specs.Schema.{Legal, places_of};
ghost use Rattle.ncc_layout.specs.Sizes.{AreSizes};
ghost use Rattle.ncc_check.specs.Examining.{HasSizes};
ghost use Rattle.ncc_check.specs.FromStore.{IsBegun};
ghost use Rattle.ncc_parts.specs.Breaking.{broken_by};
ghost use Rattle.ncc_parts.specs.Parts.{ends_from, part_at, parts_of};
ghost use Rattle.ncc_explain.specs.Likeness.{likeness};
ghost use Rattle.ncc_explain.specs.Members.{broken_members, broken_part_members, header_fault_members, in_member, layout_fault_members, letter_members, like_members, note_object, note_part_members, ok_members, place_members, report_members, site_members, value_members};

use crate::likeness::likeness;
use crate::members::{put_broken, put_note_numbers, put_variable};
use crate::parts::{known, name_in, owner_in, push_part};
use crate::rules::{header_rule, layout_rule, note_rule};
use crate::site::Site;
use json::Writer;
use ncc_check::{Checked, Note, NoteKind, Report, Unplaced};
use ncc_header::{Fault, FaultKind, Header, Unfinished};
use ncc_json::{put_bytes_member, put_fault, put_list, put_number, put_text, put_two};
use ncc_layout::{LayoutFault, Sizes};
use ncc_lines::{fault_name, layout_name, note_name};
use ncc_parts::{Part, Piece, broken_by, part_of, pieces_of, variable_at};
use std::alloc::{AllocError, Global};

/// Adds the version, and the number of records and of variables.
#[tactic(auto, unfolding(crate::specs::Members::ok_members))]
fn put_ok(out: &mut Writer, report: &Report) -> Result<(), AllocError>
    ensures tokens { OnOk result (out.new.tokens ≡ out.old.tokens ++ ok_members report.now) }
    ensures before { out.new.before ≡ out.old.before }
{
    put_text(out, "verdict", "ok")?;
    put_number(out, "version", report.version.byte() as u64)?;
    put_number(out, "records", report.records)?;
    put_number(out, "variables", report.variables as u64)?;
    Ok(())
}

/// Adds a part of the header in words.
#[tactic(auto, unfolding(crate::specs::Members::in_member))]
fn put_part(
    alloc: Global,
    out: &mut Writer,
    part: Part,
    name: Option<&[u8]>,
    owner: Option<&[u8]>,
) -> Result<(), AllocError>
    ensures tokens { OnOk result (out.new.tokens ≡ out.old.tokens
        ++ in_member part (option_map (λ n. n.now) name.entry) (option_map (λ n. n.now) owner.entry)) }
    ensures before { out.new.before ≡ out.old.before }
{
    let mut words = Vec::new(alloc);
    push_part(&mut words, part, name, owner)?;
    put_bytes_member(alloc, out, "in", &words)
}

/// Adds the part that a note is in, and its numbers.
fn put_note_part(
    alloc: Global,
    out: &mut Writer,
    header: &Header,
    sizes: &Sizes,
    kind: NoteKind,
    part: Option<Part>,
) -> Result<(), AllocError>
    requires { AreSizes header.now.schema sizes.now }
    ensures tokens { OnOk result (out.new.tokens ≡ out.old.tokens ++ note_part_members header.now kind part) }
    ensures before { out.new.before ≡ out.old.before }
{
    let Some(part) = part else {
        return Ok(());
    };
    let schema = &header.schema;
    let (name, owner) = (name_in(schema, part), owner_in(schema, part));
    put_part(alloc, out, part, name, owner)?;
    put_note_numbers(out, header, sizes, kind, part)?;
    Ok(())
}

/// The part of the header that an offset is in.
fn part_with(header: &Header, pieces: &[Piece], offset: u64) -> Option<Part>
    requires { pieces.now ≡ ends_from 0 (parts_of header.now.schema) }
    ensures { result ≡ part_at offset (parts_of header.now.schema) }
{
    part_of(pieces, offset)
}

/// Adds a note.
#[tactic(auto, unfolding(crate::specs::Members::note_object))]
fn put_note(
    alloc: Global,
    out: &mut Writer,
    header: &Header,
    sizes: &Sizes,
    pieces: &[Piece],
    note: &Note,
) -> Result<(), AllocError>
    requires sizes { AreSizes header.now.schema sizes.now }
    requires pieces { pieces.now ≡ ends_from 0 (parts_of header.now.schema) }
    ensures tokens { OnOk result (out.new.tokens ≡ out.old.tokens ++ note_object header.now note.now) }
    ensures before { out.new.before ≡ out.old.before }
{
    out.begin_object()?;
    put_text(out, "note", note_name(note.kind))?;
    put_number(out, "offset", note.offset)?;
    put_note_part(
        alloc,
        out,
        header,
        sizes,
        note.kind,
        part_with(header, pieces, note.offset),
    )?;
    put_text(out, "rule", note_rule(note.kind))?;
    out.end_object()?;
    Ok(())
}

/// Adds all notes.
fn put_notes(
    alloc: Global,
    out: &mut Writer,
    header: &Header,
    sizes: &Sizes,
    pieces: &[Piece],
    notes: &[Note],
) -> Result<(), AllocError>
    requires sizes { AreSizes header.now.schema sizes.now }
    requires pieces { pieces.now ≡ ends_from 0 (parts_of header.now.schema) }
    ensures tokens { OnOk result (out.new.tokens ≡ out.old.tokens ++ flat_map (note_object header.now) notes.now) }
    ensures before { out.new.before ≡ out.old.before }
{
    for note in notes {
        put_note(alloc, out, header, sizes, pieces, note)?;
    }
    Ok(())
}

/// Adds the notes of a file that passes. Without any, its parts aren't looked for.
fn put_noted(alloc: Global, out: &mut Writer, found: &Checked) -> Result<(), AllocError>
    requires begun { IsBegun found.now.header }
    requires sizes { AreSizes found.now.header.schema found.now.sizes }
    ensures tokens { OnOk result
        (out.new.tokens ≡ out.old.tokens ++ flat_map (note_object found.now.header) found.now.report.notes) }
    ensures before { out.new.before ≡ out.old.before }
{
    if found.report.notes.is_empty() {
        return Ok(());
    }
    let (header, sizes) = (&found.header, &found.sizes);
    let pieces = pieces_of(alloc, header)?;
    put_notes(
        alloc,
        out,
        header,
        sizes,
        &pieces,
        found.report.notes.as_slice(),
    )
}

/// Adds all that is told of a file that passes.
#[tactic(auto, unfolding(crate::specs::Members::report_members))]
fn put_report(alloc: Global, out: &mut Writer, found: &Checked) -> Result<(), AllocError>
    requires begun { IsBegun found.now.header }
    requires sizes { AreSizes found.now.header.schema found.now.sizes }
    ensures tokens { OnOk result (out.new.tokens ≡ out.old.tokens ++ report_members found.now.header found.now.report) }
    ensures before { out.new.before ≡ out.old.before }
{
    put_ok(out, &found.report)?;
    put_list(out, "notes")?;
    put_noted(alloc, out, found)?;
    out.end_array()?;
    Ok(())
}

/// The text of what is told of a file that passes.
pub fn report_object(alloc: Global, found: &Checked) -> Result<Vec<u8>, AllocError>
    requires begun { IsBegun found.now.header }
    requires sizes { AreSizes found.now.header.schema found.now.sizes }
    ensures { IfOk result (λ v. v.items ≡ print (report_members found.now.header found.now.report)) }
{
    let mut out = Writer::new(Vec::new(alloc));
    put_report(alloc, &mut out, found)?;
    Ok(out.into_inner())
}

/// Adds the numbers by which the layout rule fails for a variable, where the sizes are known.
fn put_broken_by(
    alloc: Global,
    out: &mut Writer,
    header: &Header,
    sizes: &Option<Sizes>,
    file_length: u64,
    fault: LayoutFault,
    number: usize,
) -> Result<(), AllocError>
    requires legal { Legal header.now.schema (places_of header.now.places) }
    requires sizes { HasSizes header.now fault.kind sizes.now }
    requires there { number < length header.now.schema.vars }
    ensures tokens { OnOk result
        (out.new.tokens ≡ out.old.tokens ++ broken_members header.now.schema
        (broken_by header.now file_length fault.kind number)) }
    ensures before { out.new.before ≡ out.old.before }
{
    let Some(sizes) = sizes else {
        return Ok(());
    };
    match broken_by(header, sizes, file_length, fault.kind, number) {
        Some(broken) => put_broken(alloc, out, &header.schema, broken),
        None => Ok(()),
    }
}

/// Adds the variable that has a layout fault, and the numbers of it.
fn put_broken_part(alloc: Global, out: &mut Writer, found: &Unplaced) -> Result<(), AllocError>
    requires legal { Legal found.now.header.schema (places_of found.now.header.places) }
    requires sizes { HasSizes found.now.header found.now.fault.kind found.now.sizes }
    ensures tokens { OnOk result (out.new.tokens ≡ out.old.tokens ++ broken_part_members found.now.header
        found.now.file_length found.now.fault
        (position (λ p. p.begin_at == found.now.fault.offset) found.now.header.places)) }
    ensures before { out.new.before ≡ out.old.before }
{
    let header = &found.header;
    let Some(number) = variable_at(header.places.as_slice(), found.fault.offset) else {
        return Ok(());
    };
    put_variable(alloc, out, &header.schema, "variable", number)?;
    put_broken_by(
        alloc,
        out,
        header,
        &found.sizes,
        found.file_length,
        found.fault,
        number,
    )
}

/// Adds all that is told of a file whose layout has a fault.
#[tactic(auto, unfolding(crate::specs::Members::layout_fault_members))]
fn put_layout_fault(alloc: Global, out: &mut Writer, found: &Unplaced) -> Result<(), AllocError>
    requires legal { Legal found.now.header.schema (places_of found.now.header.places) }
    requires sizes { HasSizes found.now.header found.now.fault.kind found.now.sizes }
    ensures tokens { OnOk result
        (out.new.tokens ≡ out.old.tokens
        ++ layout_fault_members found.now.header found.now.file_length found.now.fault) }
    ensures before { out.new.before ≡ out.old.before }
{
    put_fault(out, layout_name(found.fault.kind), found.fault.offset)?;
    put_broken_part(alloc, out, found)?;
    put_text(out, "rule", layout_rule(found.fault.kind))?;
    Ok(())
}

/// The text of what is told of a file whose layout has a fault.
pub fn layout_fault_object(alloc: Global, found: &Unplaced) -> Result<Vec<u8>, AllocError>
    requires legal { Legal found.now.header.schema (places_of found.now.header.places) }
    requires sizes { HasSizes found.now.header found.now.fault.kind found.now.sizes }
    ensures { IfOk result (λ v. v.items
        ≡ print (layout_fault_members found.now.header found.now.file_length found.now.fault)) }
{
    let mut out = Writer::new(Vec::new(alloc));
    put_layout_fault(alloc, &mut out, found)?;
    Ok(out.into_inner())
}

/// Adds what a file looks like that begins with these three bytes, if that is known.
fn put_like(out: &mut Writer, letters: u64) -> Result<(), AllocError>
    ensures tokens { OnOk result (out.new.tokens ≡ out.old.tokens ++ like_members (likeness letters)) }
    ensures before { out.new.before ≡ out.old.before }
{
    let words = likeness(letters);
    if words.is_empty() {
        return Ok(());
    }
    put_text(out, "looks_like", words)
}

/// Adds the same where the letters are known.
fn put_letters(out: &mut Writer, value: Option<u64>) -> Result<(), AllocError>
    ensures tokens { OnOk result (out.new.tokens ≡ out.old.tokens ++ letter_members value) }
    ensures before { out.new.before ≡ out.old.before }
{
    match value {
        Some(letters) => put_like(out, letters),
        None => Ok(()),
    }
}

/// Adds the number in a field, if it is known.
fn put_value(out: &mut Writer, value: Option<u64>) -> Result<(), AllocError>
    ensures tokens { OnOk result (out.new.tokens ≡ out.old.tokens ++ value_members value) }
    ensures before { out.new.before ≡ out.old.before }
{
    match value {
        Some(n) => put_number(out, "value", n),
        None => Ok(()),
    }
}

/// Adds the numbers of a header's fault.
fn put_site(out: &mut Writer, kind: FaultKind, limit: u64, site: &Site) -> Result<(), AllocError>
    ensures tokens { OnOk result (out.new.tokens ≡ out.old.tokens ++ site_members kind limit site.now) }
    ensures before { out.new.before ≡ out.old.before }
{
    match kind {
        FaultKind::BadMagic => put_letters(out, site.value),
        FaultKind::HeaderTooLong => put_two(
            out,
            "limit",
            limit as u128,
            "file_length",
            site.file_length as u128,
        ),
        FaultKind::EndsEarly => put_number(out, "file_length", site.file_length),
        _ => put_value(out, site.value),
    }
}

/// Adds the part in which a header goes on.
fn put_place(alloc: Global, out: &mut Writer, place: &Option<Unfinished>) -> Result<(), AllocError>
    ensures tokens { OnOk result (out.new.tokens ≡ out.old.tokens ++ place_members place.now) }
    ensures before { out.new.before ≡ out.old.before }
{
    let Some(place) = place else {
        return Ok(());
    };
    put_part(
        alloc,
        out,
        place.part,
        known(&place.name),
        known(&place.owner),
    )
}

/// Adds all that is told of a file whose header has a fault.
#[tactic(auto, unfolding(crate::specs::Members::header_fault_members))]
fn put_header_fault(
    alloc: Global,
    out: &mut Writer,
    limit: u64,
    fault: Fault,
    site: &Site,
) -> Result<(), AllocError>
    ensures tokens { OnOk result
        (out.new.tokens ≡ out.old.tokens ++ header_fault_members limit fault site.now) }
    ensures before { out.new.before ≡ out.old.before }
{
    put_fault(out, fault_name(fault.kind), fault.offset)?;
    put_place(alloc, out, &site.place)?;
    put_site(out, fault.kind, limit, site)?;
    put_text(out, "rule", header_rule(fault.kind))?;
    Ok(())
}

/// The text of what is told of a file whose header has a fault.
pub fn header_fault_object(
    alloc: Global,
    limit: u64,
    fault: Fault,
    site: &Site,
) -> Result<Vec<u8>, AllocError>
    ensures { IfOk result (λ v. v.items ≡ print (header_fault_members limit fault site.now)) }
{
    let mut out = Writer::new(Vec::new(alloc));
    put_header_fault(alloc, &mut out, limit, fault, site)?;
    Ok(out.into_inner())
}
