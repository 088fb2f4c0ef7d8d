//! The command line: its words, and what help says of them.

use crate::version::VERSION;
use clap::{Arg, ArgAction, Command, value_parser};
use std::alloc::{AllocError, Global};

/// What the help of `ncc` says of its statuses.
const STATUSES: &str = "Example:
  ncc check ocean.nc

`ncc help COMMAND` says more of a command, and `ncc help faults` lists all faults, notes and
refusals. A netCDF-4 file is an HDF5 file, and isn't read (BadMagic): `nccopy -k cdf5 IN OUT`
makes a classic file of it where it can.

Status:
  0  it passed
  1  the file has a fault, or what is asked for is refused
  2  the command line is wrong
  3  a device or memory failed";

/// What the help of `list` says of its lines, statuses and the limit.
const LIST_STATUSES: &str = "Example:
  ncc list --decimal ocean.nc

Of several files each line has the path, a colon and a space before it, and the status is the
worst. A FILE - is standard input, where it is the only one. With --json the same is printed as an
object for each file, in one line; with --decimal a finite float is a number in it; NaN and the
infinities are texts, and without --decimal all floats are, with their bits. A list of names has a
NUL byte after each, as `find -print0` writes them.

A header may have 67108864 bytes; a longer one is the fault HeaderTooLong.

Faults (`ncc help faults` says more):
  another kind of file   BadMagic (netCDF-4, say), BadVersion
  cut short              EndsEarly
  the header is wrong    NegativeCount, BadTag, BadType, TwoRecordDims, BadDimId,
                         RecordDimNotFirst, NegativeOffset
  too long a header      HeaderTooLong

Status:
  0  listed
  1  the header has a fault, which is the only line
  2  the command line is wrong
  3  a device or memory failed";

/// What the help of `layout` says of its lines, statuses and the limit.
const LAYOUT_STATUSES: &str = "Example:
  ncc layout ocean.nc

It prints the length of the file, where the header begins and ends, and a line for each variable, in
the order in which they begin: its number in the header, its name, fixed or record, and the offsets
in bytes of its first byte and of the first byte after it, without padding; of a record variable
those in the first record. Then `gap` and how many bytes lie between the end of all before it and
its begin, or `overlap` and how many bytes before that end it begins.

A line follows for the records: how many there are, where the first begins, the bytes of one, and
where the last ends. The last line is `after` and how many bytes follow all that the header speaks
of, or `missing` and how many the file lacks.

It works whatever faults the layout has, but TooLarge: `ncc check` says which it has. Of several
files each line has the path, a colon and a space before it, and the status is the worst. With
--json the same is printed as an object for each file, in one line. A list of names has a NUL byte
after each, as `find -print0` writes them.

With --svg FILE a picture is printed in place of the lines, which a browser shows: the file as a bar
from its first byte to its last, below it one record, and a line for each of the 40 variables with
the most bytes (of a record variable, in one record). Gaps are white, bytes after all are grey, and
what variables share or the file lacks is hatched in red.

A header may have 67108864 bytes; a longer one is the fault HeaderTooLong.

Status:
  0  laid out
  1  the header has a fault or a variable is too large, which is the only line
  2  the command line is wrong
  3  a device or memory failed";

/// What the help of `check` says of its lines, statuses and the limit.
const CHECK_STATUSES: &str = "Example:
  ncc check --brief *.nc

It prints `ok`, the version, the number of records and of variables, and a line for each note:
something unusual that a reader can live with. Of a file that doesn't pass it prints the first
fault and its offset in bytes.

Of several files each line has the path, a colon and a space before it, and the status is the
worst. With --brief there is one line for each: the status, the answer and the path, with tabs
between them. A list of names has a NUL byte after each, as `find -print0` writes them.

With --explain each fault and note is followed by lines that begin with four spaces: the part of
the header that it is in, its numbers, and its rule, with the section of The NetCDF Classic
Format Specification that it rests on in brackets. With --json the same is printed as an object
for each file, in one line.

A header may have 67108864 bytes, or as many as --max-header says; a longer one is the
fault HeaderTooLong.

Faults (`ncc help faults` says more):
  another kind of file   BadMagic (netCDF-4, say), BadVersion
  cut short              EndsEarly, Truncated
  the header is wrong    NegativeCount, BadTag, BadType, TwoRecordDims, BadDimId,
                         RecordDimNotFirst, NegativeOffset
  too long a header      HeaderTooLong
  places share bytes     InHeader, Overlap, RecordWindow, FixedAfterRecords
  too large              TooLarge

Notes: VsizeField, HeaderPadding, TaggedEmpty, NameRule, DuplicateName, UnalignedBegin, Order,
LargeCount.

Status:
  0  it passed
  1  it has a fault, which is the only line but with --explain, or with --strict a note
  2  the command line is wrong
  3  a device or memory failed";

/// What the help of `csv` says of its lists and statuses.
const CSV_STATUSES: &str = "Example:
  ncc csv --decimal ocean.nc temperature --start 0,0,0 --count 1,1,3

A is a list of numbers with commas between them, one for each dimension. What isn't given
is 0 for the start, 1 for the stride, and for the count as many as fit. VAR is the name as it is in
the file, where `list` prints \\x20 for a space.

The first row names the dimensions and the variable. Each other row has the indices of an
element in the whole array, and its value as it is stored: scale_factor, add_offset, missing
values and units of time are not applied. A char is the number of its byte, and a float or
a double is shown by its bits, or with --decimal as a number. With --text the last dimension of
a char variable is one field: its bytes as `list` prints them, without the NULs at the end. A
netCDF-4 file isn't read (BadMagic): `nccopy -k cdf5 IN OUT` makes a classic file of it where
it can.

It prints `refused NoVariable` where no variable has the name, `refused RankMismatch` where a list
has not one number for each dimension, `refused ZeroStride K` and `refused Outside K` where a
stride is 0 or an index is outside along dimension K, counted from 0; or the file's fault.

Status:
  0  selected
  1  the file has a fault or the selection is refused, which is the only line
  2  the command line is wrong
  3  a device or memory failed";

/// What the help of `extend` says of what it writes, and of statuses.
const EXTEND_STATUSES: &str = "Example:
  ncc extend series.nc 1

N records of fill values are added, each with its own syncs: whatever stops it, a file that was
whole on the disk passes with those that were added. A program may then write their values in
place. It prints how many records there are. A refusal is the only line, and leaves the records
before it. With N 0 nothing is written.

It prints `refused NoRecordVariable` where no variable has records, `refused NotPacked` where the
records don't follow one another, `refused Streaming` where the file is still being written, and
`refused CountFull` where the version can't count one more record; or the file's fault.

Status:
  0  all records were added
  1  the file has a fault or takes no more records, which is the only line
  2  the command line is wrong
  3  a device or memory failed";

/// What the help of `convert` says of what it writes, and of statuses.
const CONVERT_STATUSES: &str = "Example:
  ncc convert --to 5 ocean.nc ocean_5.nc

The new file has the same dimensions, attributes, variables and values, each in a place of its
own, and is on the disk when the line is printed. It is written as OUT.part, and gets its name
once it is whole. A failure leaves neither, a kill or Ctrl-C at most OUT.part: remove it. A refusal
is the only line, and then no file is made.

It prints `refused TypeForVersion`, `refused CountForVersion`, `refused SizeForVersion` or `refused
OffsetForVersion` where the version has no such type, or can't count or place so much, and
`refused BadName` or `refused DuplicateName` for a name that no file should have; or IN's fault.

Status:
  0  converted
  1  the file has a fault or the version can't hold it, which is the only line
  2  the command line is wrong
  3  a device or memory failed";

/// The versions by their numbers.
const VERSIONS: [&str; 3] = ["1", "2", "5"];

fn file_argument<'a>(alloc: Global) -> Arg<'a> {
    Arg::new(alloc, "FILE")
        .help("A netCDF classic file")
        .required(true)
        .action(ArgAction::Set)
}

/// Files, unless a list names them.
fn files_argument<'a>(alloc: Global) -> Result<Arg<'a>, AllocError> {
    Arg::new(alloc, "FILE")
        .help("netCDF classic files")
        .num_args(1..)
        .action(ArgAction::Append)
        .required_unless_present("files-from0")
}

/// Files, unless a list names them, or one is to be a picture.
fn laid_out_argument<'a>(alloc: Global) -> Result<Arg<'a>, AllocError> {
    files_argument(alloc)?.required_unless_present("svg")
}

/// A list of names of files.
fn names_argument<'a>(alloc: Global) -> Result<Arg<'a>, AllocError> {
    Arg::new(alloc, "files-from0")
        .long("files-from0")
        .value_name("LIST")
        .help("Takes file names from LIST, a NUL byte after each; - is standard input")
        .action(ArgAction::Set)
        .conflicts_with("FILE")
}

/// A flag.
fn flag<'a>(alloc: Global, name: &'a str, help: &'a str) -> Arg<'a> {
    Arg::new(alloc, name)
        .long(name)
        .help(help)
        .action(ArgAction::SetTrue)
}

/// Whether floats print in decimal.
fn decimal_argument<'a>(alloc: Global) -> Arg<'a> {
    flag(
        alloc,
        "decimal",
        "Shows floats as the shortest decimals that read back to the same bits",
    )
}

/// Whether a failure is explained.
fn verbose_argument<'a>(alloc: Global) -> Arg<'a> {
    flag(
        alloc,
        "verbose",
        "Says why, where a file can't be read or written",
    )
}

/// Whether files are shown as objects.
fn json_argument<'a>(alloc: Global) -> Arg<'a> {
    flag(
        alloc,
        "json",
        "Prints a JSON object for each file, in one line",
    )
}

fn list_command<'a>(alloc: Global) -> Result<Command<'a>, AllocError> {
    Command::new(alloc, "list")
        .about("Lists what the headers of files say")
        .after_help(LIST_STATUSES)
        .arg(decimal_argument(alloc))?
        .arg(json_argument(alloc))?
        .arg(names_argument(alloc)?)?
        .arg(verbose_argument(alloc))?
        .arg(files_argument(alloc)?)
}

/// The file of a picture.
fn picture_argument<'a>(alloc: Global) -> Result<Arg<'a>, AllocError> {
    Arg::new(alloc, "svg")
        .long("svg")
        .value_name("FILE")
        .help("Prints a picture of this file, and of no other")
        .action(ArgAction::Set)
        .conflicts_with("FILE")?
        .conflicts_with("files-from0")?
        .conflicts_with("json")
}

fn layout_command<'a>(alloc: Global) -> Result<Command<'a>, AllocError> {
    Command::new(alloc, "layout")
        .about("Shows where everything in files lies")
        .after_help(LAYOUT_STATUSES)
        .arg(json_argument(alloc))?
        .arg(picture_argument(alloc)?)?
        .arg(names_argument(alloc)?)?
        .arg(verbose_argument(alloc))?
        .arg(laid_out_argument(alloc)?)
}

/// Whether faults and notes are explained.
fn explain_argument<'a>(alloc: Global) -> Result<Arg<'a>, AllocError> {
    flag(
        alloc,
        "explain",
        "Says where each fault and note is, its numbers, and its rule",
    )
    .conflicts_with("brief")
}

/// Whether verdicts are shown as objects.
fn json_verdict_argument<'a>(alloc: Global) -> Result<Arg<'a>, AllocError> {
    json_argument(alloc)
        .conflicts_with("brief")?
        .conflicts_with("explain")
}

/// The limit of a header.
fn limit_argument<'a>(alloc: Global) -> Arg<'a> {
    Arg::new(alloc, "max-header")
        .long("max-header")
        .value_name("N")
        .help("How many bytes a header may have")
        .value_parser(value_parser!(u64))
        .allow_negative_numbers(true)
        .action(ArgAction::Set)
}

fn check_command<'a>(alloc: Global) -> Result<Command<'a>, AllocError> {
    Command::new(alloc, "check")
        .about("Says whether files are sound, and what is unusual in them")
        .after_help(CHECK_STATUSES)
        .arg(flag(alloc, "strict", "Refuses a file that has a note"))?
        .arg(flag(alloc, "brief", "Prints one line for each file"))?
        .arg(explain_argument(alloc)?)?
        .arg(json_verdict_argument(alloc)?)?
        .arg(limit_argument(alloc))?
        .arg(names_argument(alloc)?)?
        .arg(verbose_argument(alloc))?
        .arg(files_argument(alloc)?)
}

/// An argument that is a list of numbers.
fn list_argument<'a>(alloc: Global, name: &'a str, help: &'a str) -> Arg<'a> {
    Arg::new(alloc, name)
        .long(name)
        .value_name("A")
        .help(help)
        .allow_hyphen_values(true)
        .action(ArgAction::Set)
}

fn csv_command<'a>(alloc: Global) -> Result<Command<'a>, AllocError> {
    let variable = Arg::new(alloc, "VAR")
        .help("The name of a variable")
        .required(true)
        .action(ArgAction::Set);
    Command::new(alloc, "csv")
        .about("Prints the values of a variable, or of a selection of them")
        .after_help(CSV_STATUSES)
        .arg(list_argument(alloc, "start", "The first index along each dimension"))?
        .arg(list_argument(alloc, "count", "How many indices along each dimension"))?
        .arg(list_argument(alloc, "stride", "The step from one index to the next"))?
        .arg(decimal_argument(alloc))?
        .arg(flag(
            alloc,
            "text",
            "Shows a char variable's last dimension as one field",
        ))?
        .arg(verbose_argument(alloc))?
        .arg(file_argument(alloc))?
        .arg(variable)
}

fn extend_command<'a>(alloc: Global) -> Result<Command<'a>, AllocError> {
    let more = Arg::new(alloc, "N")
        .help("How many records")
        .required(true)
        .value_parser(value_parser!(u64))
        .allow_negative_numbers(true)
        .action(ArgAction::Set);
    Command::new(alloc, "extend")
        .about("Adds records of fill values to a file")
        .after_help(EXTEND_STATUSES)
        .arg(verbose_argument(alloc))?
        .arg(file_argument(alloc))?
        .arg(more)
}

fn convert_command<'a>(alloc: Global) -> Result<Command<'a>, AllocError> {
    let version = Arg::new(alloc, "to")
        .long("to")
        .value_name("VERSION")
        .help("The version: 1, 2 or 5")
        .required(true)
        .value_parser(&VERSIONS[..])
        .action(ArgAction::Set);
    let from = Arg::new(alloc, "IN")
        .help("A netCDF classic file")
        .required(true)
        .action(ArgAction::Set);
    let to = Arg::new(alloc, "OUT")
        .help("The file that is made; it must not be there")
        .required(true)
        .action(ArgAction::Set);
    Command::new(alloc, "convert")
        .about("Writes what a file holds into a new file, in another version")
        .after_help(CONVERT_STATUSES)
        .arg(version)?
        .arg(verbose_argument(alloc))?
        .arg(from)?
        .arg(to)
}

/// Adds all commands.
fn with_all<'a>(alloc: Global, ncc: Command<'a>) -> Result<Command<'a>, AllocError> {
    ncc.subcommand(check_command(alloc)?)?
        .subcommand(convert_command(alloc)?)?
        .subcommand(csv_command(alloc)?)?
        .subcommand(extend_command(alloc)?)?
        .subcommand(layout_command(alloc)?)?
        .subcommand(list_command(alloc)?)
}

/// The command line of `ncc`, as far as these words need it: where the first of them names a command, the others are
/// left out.
pub fn command<'a>(alloc: Global, line: &[String]) -> Result<Command<'a>, AllocError> {
    let ncc = Command::new(alloc, "ncc")
        .bin_name("ncc")?
        .version(VERSION)
        .about("Checks, lists, reads, extends and converts netCDF classic files")
        .after_help(STATUSES)
        .subcommand_required(true)
        .arg_required_else_help(true);
    let first = match line.get(1) {
        Some(word) => word.as_str(),
        None => "",
    };
    match first {
        "check" => ncc.subcommand(check_command(alloc)?),
        "convert" => ncc.subcommand(convert_command(alloc)?),
        "csv" => ncc.subcommand(csv_command(alloc)?),
        "extend" => ncc.subcommand(extend_command(alloc)?),
        "layout" => ncc.subcommand(layout_command(alloc)?),
        "list" => ncc.subcommand(list_command(alloc)?),
        _ => with_all(alloc, ncc),
    }
}
