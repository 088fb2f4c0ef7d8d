//! What `ncc help faults` says.

/// Each fault, note and refusal in a few words.
pub const FAULTS: &str = "Faults of the header, at the offset of the field that shows them:
  BadMagic           the file doesn't begin with CDF
  BadVersion         the version byte is none of 1, 2 and 5
  NegativeCount      a count or length has its top bit set
  BadTag             the tag of a list is neither zero nor its own, or zero with items after it
  BadType            the version has no type of this code
  TwoRecordDims      a second dimension has length 0
  BadDimId           a variable names a dimension that isn't there
  RecordDimNotFirst  the record dimension isn't the variable's first
  NegativeOffset     a begin has its top bit set
  HeaderTooLong      the header passes the limit of 67108864 bytes, or of --max-header
  EndsEarly          the file ends inside the header

Faults of the layout, at the begin field of the variable:
  TooLarge           a variable or the records have 2^63 - 3 bytes or more
  InHeader           a variable begins inside the header
  Overlap            two variables share bytes
  RecordWindow       a variable's record passes the end of the first record
  FixedAfterRecords  a variable without records ends after the records begin
  Truncated          the file ends before a variable's last element

Notes, at the offset of the field:
  VsizeField         a vsize isn't the variable's size
  HeaderPadding      padding in the header has a byte that isn't zero
  TaggedEmpty        an empty list has its tag
  NameRule           a name breaks the rule for names
  DuplicateName      a name stands twice in a list
  UnalignedBegin     a begin is no multiple of 4
  Order              a variable begins before an earlier one of its kind
  LargeCount         a count or length has its top bit set

Refusals of csv:
  NoVariable         no variable has this name
  RankMismatch       a list has not one number for each dimension
  ZeroStride K       the stride along dimension K is 0
  Outside K          an index along dimension K is outside

Refusals of extend:
  NoRecordVariable   no variable has records
  NotPacked          the records don't follow one another
  Streaming          the file is still being written
  CountFull          the version can't count one more record

Refusals of convert:
  BadName            a name breaks the rule for names, or has more than 256 bytes
  DuplicateName      a name stands twice in a list
  TypeForVersion     the version has no such type
  CountForVersion    the version can't count so many
  SizeForVersion     a variable is too large for the version
  OffsetForVersion   a variable would begin too far into the file for the version
";

/// Whether the words of a command line ask for this text.
pub fn asks_for_faults(line: &[String]) -> bool {
    line.len() == 3 && line[1].as_str() == "help" && line[2].as_str() == "faults"
}
