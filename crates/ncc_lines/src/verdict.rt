//! The lines of a verdict: of a file that passes, of its notes, and of its fault.

ghost use Rattle.std.specs.Prelude.{◌≡◌, ◌++◌, OnOk};
ghost use Rattle.std.specs.List.{flat_map};
ghost use Rattle.ncc_values.specs.Failures.{Counts};
ghost use Rattle.ncc_schema.specs.Device.{WritesAll};
ghost use Rattle.ncc_lines.specs.Verdicts.{ok_line, note_word, note_line, layout_word, report_text, file_fault_line};
ghost use Rattle.ncc_lines.specs.Sends.{Sends, Blames};

use crate::page::turn_page;
use crate::putting::put_at;
use crate::send_error::SendError;
use crate::texts::{push_at, push_decimal, put_fault, version_word};
use ncc_check::{FileFault, Note, NoteKind, Report};
use ncc_header::{Device, Sink};
use ncc_layout::LayoutFaultKind;
use std::alloc::AllocError;

/// Adds the first line about a file that passes.
#[tactic(auto, unfolding(crate::specs::Verdicts::ok_line))]
pub fn push_ok(out: &mut Vec<u8>, report: &Report) -> Result<(), AllocError>
    ensures { OnOk result (out.new.items ≡ out.old.items ++ ok_line report.now) }
{
    out.extend_from_slice(b"ok ")?;
    out.extend_from_slice(version_word(report.version).as_bytes())?;
    out.extend_from_slice(b" records ")?;
    push_decimal(out, report.records)?;
    out.extend_from_slice(b" variables ")?;
    push_decimal(out, report.variables as u64)?;
    out.extend_from_slice(b"\n")?;
    Ok(())
}

/// Sends the first line about a file that passes.
fn send_ok<W: Sink>(report: &Report, page: &mut Vec<u8>, sink: &mut W) -> Result<(), SendError>
    ensures sent { Sends (W.put sink.old) (W.put sink.new)
        (page.old.items ++ ok_line report.now) page.new.items result }
    ensures count { Blames (W.failures sink.old) (W.failures sink.new) result }
{
    push_ok(page, report)?;
    turn_page(page, sink)
}

/// The word that names a note.
pub fn note_name(kind: NoteKind) -> &'static str
    ensures { result.now ≡ note_word kind }
{
    match kind {
        NoteKind::VsizeField => "VsizeField",
        NoteKind::HeaderPadding => "HeaderPadding",
        NoteKind::TaggedEmpty => "TaggedEmpty",
        NoteKind::NameRule => "NameRule",
        NoteKind::DuplicateName => "DuplicateName",
        NoteKind::UnalignedBegin => "UnalignedBegin",
        NoteKind::Order => "Order",
        NoteKind::LargeCount => "LargeCount",
    }
}

/// The word that names a fault of the layout.
pub fn layout_name(kind: LayoutFaultKind) -> &'static str
    ensures { result.now ≡ layout_word kind }
{
    match kind {
        LayoutFaultKind::TooLarge => "TooLarge",
        LayoutFaultKind::InHeader => "InHeader",
        LayoutFaultKind::Overlap => "Overlap",
        LayoutFaultKind::RecordWindow => "RecordWindow",
        LayoutFaultKind::FixedAfterRecords => "FixedAfterRecords",
        LayoutFaultKind::Truncated => "Truncated",
    }
}

/// Sends the line of a note.
fn send_note<W: Sink>(note: &Note, page: &mut Vec<u8>, sink: &mut W) -> Result<(), SendError>
    ensures sent { Sends (W.put sink.old) (W.put sink.new)
        (page.old.items ++ note_line note.now) page.new.items result }
    ensures count { Blames (W.failures sink.old) (W.failures sink.new) result }
{
    push_at(page, b"note ", note_name(note.kind), note.offset)?;
    turn_page(page, sink)
}

/// Sends a line for each note.
fn send_notes<W: Sink>(notes: &[Note], page: &mut Vec<u8>, sink: &mut W) -> Result<(), SendError>
    ensures sent { Sends (W.put sink.old) (W.put sink.new)
        (page.old.items ++ flat_map note_line notes.now) page.new.items result }
    ensures count { Blames (W.failures sink.old) (W.failures sink.new) result }
{
    for note in notes {
        send_note(note, page, sink)?;
    }
    Ok(())
}

/// Sends all lines about a file that passes; the last of them are left on the page.
pub fn send_verdict<W: Sink>(
    report: &Report,
    page: &mut Vec<u8>,
    sink: &mut W,
) -> Result<(), SendError>
    ensures sent { Sends (W.put sink.old) (W.put sink.new)
        (page.old.items ++ report_text report.now) page.new.items result }
    ensures count { Blames (W.failures sink.old) (W.failures sink.new) result }
{
    send_ok(report, page, sink)?;
    send_notes(report.notes.as_slice(), page, sink)
}

/// Puts out the line of a file's fault.
pub fn put_file_fault<W: Sink>(fault: FileFault, sink: &mut W) -> Result<(), Device>
    ensures bytes { WritesAll (W.put sink.old) (W.put sink.new) result (file_fault_line fault) }
    ensures count { Counts (W.failures sink.old) (W.failures sink.new) result }
{
    match fault {
        FileFault::Header(fault) => put_fault(fault, sink),
        FileFault::Layout(fault) => put_at(b"fault ", layout_name(fault.kind), fault.offset, sink),
    }
}
