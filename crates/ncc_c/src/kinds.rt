//! Kinds of faults and of notes by number.

ghost use Rattle.std.specs.Prelude.{◌≡◌};
ghost use Rattle.ncc_c.specs.Outcomes.{of_header, of_layout, of_fault, offset_of, of_note};
ghost use Rattle.ncc_c.specs.Texts.{header_text, other_text, refusal_text, kind_text};

use ncc_check::{FileFault, NoteKind};
use ncc_header::FaultKind;
use ncc_layout::LayoutFaultKind;
use ncc_lines::{fault_name, layout_name, note_name};

fn of_header(kind: FaultKind) -> u32
    ensures { result ≡ of_header kind }
{
    match kind {
        FaultKind::BadMagic => 1,
        FaultKind::BadVersion => 2,
        FaultKind::NegativeCount => 3,
        FaultKind::BadTag => 4,
        FaultKind::BadType => 5,
        FaultKind::TwoRecordDims => 6,
        FaultKind::BadDimId => 7,
        FaultKind::RecordDimNotFirst => 8,
        FaultKind::NegativeOffset => 9,
        FaultKind::HeaderTooLong => 10,
        FaultKind::EndsEarly => 11,
    }
}

fn of_layout(kind: LayoutFaultKind) -> u32
    ensures { result ≡ of_layout kind }
{
    match kind {
        LayoutFaultKind::TooLarge => 21,
        LayoutFaultKind::InHeader => 22,
        LayoutFaultKind::Overlap => 23,
        LayoutFaultKind::RecordWindow => 24,
        LayoutFaultKind::FixedAfterRecords => 25,
        LayoutFaultKind::Truncated => 26,
    }
}

/// The number of a fault's kind.
pub fn of_fault(fault: FileFault) -> u32
    ensures { result ≡ of_fault fault }
{
    match fault {
        FileFault::Header(fault) => of_header(fault.kind),
        FileFault::Layout(fault) => of_layout(fault.kind),
    }
}

/// The offset of a fault's field.
pub fn offset_of(fault: FileFault) -> u64
    ensures { result ≡ offset_of fault }
{
    match fault {
        FileFault::Header(fault) => fault.offset,
        FileFault::Layout(fault) => fault.offset,
    }
}

/// The number of a note's kind.
pub fn of_note(kind: NoteKind) -> u32
    ensures { result ≡ of_note kind }
{
    match kind {
        NoteKind::VsizeField => 41,
        NoteKind::HeaderPadding => 42,
        NoteKind::TaggedEmpty => 43,
        NoteKind::NameRule => 44,
        NoteKind::DuplicateName => 45,
        NoteKind::UnalignedBegin => 46,
        NoteKind::Order => 47,
        NoteKind::LargeCount => 48,
    }
}

/// The name of a fault of the header with this number.
fn header_text(kind: u32) -> &'static str
    ensures { result.now ≡ header_text kind }
{
    match kind {
        1 => fault_name(FaultKind::BadMagic),
        2 => fault_name(FaultKind::BadVersion),
        3 => fault_name(FaultKind::NegativeCount),
        4 => fault_name(FaultKind::BadTag),
        5 => fault_name(FaultKind::BadType),
        6 => fault_name(FaultKind::TwoRecordDims),
        7 => fault_name(FaultKind::BadDimId),
        8 => fault_name(FaultKind::RecordDimNotFirst),
        9 => fault_name(FaultKind::NegativeOffset),
        10 => fault_name(FaultKind::HeaderTooLong),
        11 => fault_name(FaultKind::EndsEarly),
        _ => "",
    }
}

/// The name of a fault of the layout, or of a note, with this number.
fn other_text(kind: u32) -> &'static str
    ensures { result.now ≡ other_text kind }
{
    match kind {
        21 => layout_name(LayoutFaultKind::TooLarge),
        22 => layout_name(LayoutFaultKind::InHeader),
        23 => layout_name(LayoutFaultKind::Overlap),
        24 => layout_name(LayoutFaultKind::RecordWindow),
        25 => layout_name(LayoutFaultKind::FixedAfterRecords),
        26 => layout_name(LayoutFaultKind::Truncated),
        41 => note_name(NoteKind::VsizeField),
        42 => note_name(NoteKind::HeaderPadding),
        43 => note_name(NoteKind::TaggedEmpty),
        44 => note_name(NoteKind::NameRule),
        45 => note_name(NoteKind::DuplicateName),
        46 => note_name(NoteKind::UnalignedBegin),
        47 => note_name(NoteKind::Order),
        48 => note_name(NoteKind::LargeCount),
        _ => "",
    }
}

/// The name of a refusal with this number, as the errors of the crates below have it.
fn refusal_text(kind: u32) -> &'static str
    ensures { result.now ≡ refusal_text kind }
{
    match kind {
        61 => "NoVariable",
        62 => "RankMismatch",
        63 => "ZeroStride",
        64 => "Outside",
        71 => "NoRecordVariable",
        72 => "NotPacked",
        73 => "Streaming",
        74 => "CountFull",
        81 => "BadName",
        82 => "TypeForVersion",
        83 => "CountForVersion",
        84 => "OffsetForVersion",
        85 => "SizeForVersion",
        _ => "",
    }
}

/// The name of the kind with this number; empty where there is none.
pub fn kind_text(kind: u32) -> &'static str
    ensures { result.now ≡ kind_text kind }
{
    if kind < 21 {
        return header_text(kind);
    }
    if kind < 61 {
        return other_text(kind);
    }
    refusal_text(kind)
}
