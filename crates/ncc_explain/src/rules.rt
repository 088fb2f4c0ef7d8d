//! The rule of each fault and note in a few words.

ghost use Rattle.std.specs.Prelude.{◌≡◌};
ghost use Rattle.ncc_explain.specs.Rules.{header_rule, layout_rule, note_rule};

use ncc_check::NoteKind;
use ncc_header::FaultKind;
use ncc_layout::LayoutFaultKind;

/// The rule that a header breaks.
pub fn header_rule(kind: FaultKind) -> &'static str
    ensures { result.now ≡ header_rule kind }
{
    match kind {
        FaultKind::BadMagic =>
            "the file doesn't begin with CDF; a netCDF-4 file is an HDF5 file, and begins otherwise [The Format in Detail]",
        FaultKind::BadVersion => "the version byte is none of 1, 2 and 5 [The Format in Detail]",
        FaultKind::NegativeCount =>
            "a number of items, or in CDF-5 a dimension's length, has its top bit set [The Format in Detail]",
        FaultKind::BadTag =>
            "the tag of a list is neither zero nor its own, or zero with items after it [The Format in Detail]",
        FaultKind::BadType => "the version has no type of this code [The Format in Detail]",
        FaultKind::TwoRecordDims => "a second dimension has length 0 [The Format in Detail]",
        FaultKind::BadDimId =>
            "a variable names a dimension that isn't there [The Format in Detail]",
        FaultKind::RecordDimNotFirst => "a variable has the record dimension after its first place",
        FaultKind::NegativeOffset => "a begin has its top bit set [The Format in Detail]",
        FaultKind::HeaderTooLong => "the header passes the limit; --max-header gives another",
        FaultKind::EndsEarly => "the file ends inside the header [The Format in Detail]",
    }
}

/// The rule that a layout breaks.
pub fn layout_rule(kind: LayoutFaultKind) -> &'static str
    ensures { result.now ≡ layout_rule kind }
{
    match kind {
        LayoutFaultKind::TooLarge =>
            "a variable, or one record up to it, has more than 9223372036854775804 bytes with its padding",
        LayoutFaultKind::InHeader => "a variable begins inside the header [The Format in Detail]",
        LayoutFaultKind::Overlap => "two variables share bytes [The Format in Detail]",
        LayoutFaultKind::RecordWindow =>
            "a record variable's part of record 0 ends after record 0 [Notes on Computing File Offsets]",
        LayoutFaultKind::FixedAfterRecords =>
            "a fixed variable ends after the records begin [The Format in Detail]",
        LayoutFaultKind::Truncated =>
            "the file ends before a variable's last element does [Notes on Computing File Offsets]",
    }
}

/// What a note says.
pub fn note_rule(kind: NoteKind) -> &'static str
    ensures { result.now ≡ note_rule kind }
{
    match kind {
        NoteKind::VsizeField =>
            "a vsize isn't the one that the variable's size gives [Note on vsize]",
        NoteKind::HeaderPadding =>
            "padding in the header has a byte that isn't zero [The Format in Detail]",
        NoteKind::TaggedEmpty =>
            "a list without items has its tag, not zero [The Format in Detail]",
        NoteKind::NameRule =>
            "a name isn't UTF-8 in form NFC, or has a character that its place doesn't allow [Note on names]",
        NoteKind::DuplicateName => "a name stands twice in a list",
        NoteKind::UnalignedBegin => "a begin is no multiple of 4 [The Format in Detail]",
        NoteKind::Order =>
            "a variable begins before an earlier one of its kind [The Format in Detail]",
        NoteKind::LargeCount =>
            "the number of records, or in CDF-1 and CDF-2 a dimension's length, has its top bit set [The Format in Detail]",
    }
}
