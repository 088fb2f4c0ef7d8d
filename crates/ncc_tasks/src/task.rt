//! What a command line asks for.

ghost use Rattle.std.specs.Prelude.{◌≡◌, Err, codes, IfOk, IsOk};
ghost use Rattle.ncc_tasks.specs.Given.{given, word_or_none};
ghost use Rattle.ncc_tasks.specs.Options.{GivesSomeList, IsNoList};
ghost use Rattle.ncc_tasks.specs.Tasks.{AsksFor, Selects, Extends, Converts};
ghost use Rattle.ncc_tasks.specs.Words.{bytes_named};
ghost use Rattle.ncc_tasks.specs.declared.picking.ListOption.{ListOption};
ghost use Rattle.ncc_tasks.specs.declared.picking.WordFault.TheVariants.{Memory, NoList};

use crate::given::{
    flag_given, form_given, more_given, style_given, version_given, word_given, work_given,
};
use crate::picking::{WordFault, pick_given};
use crate::words::Words;
use clap::ArgMatches;
use ncc_answers::{Form, Work};
use ncc_csv::Pick;
use ncc_lines::FloatStyle;
use ncc_values::Version;
use std::alloc::Global;

/// A selection of a variable of a file, and how its values are shown.
#[derive(Drop)]
pub struct Selecting<'a> {
    pub file: &'a [u8],
    pub variable: &'a [u8],
    pub pick: Pick,
    pub style: FloatStyle,
    pub texts: bool,
}

/// Records of fill values that are to be added to a file.
#[derive(Clone, Copy)]
pub struct Extending<'a> {
    pub file: &'a [u8],
    pub more: u64,
}

/// A file that is to be converted into a new one.
#[derive(Clone, Copy)]
pub struct Converting<'a> {
    pub from: &'a [u8],
    pub to: &'a [u8],
    pub version: Version,
}

/// What a command line asks for.
#[derive(Drop)]
pub enum Task<'a> {
    /// An answer for each file, and how the answers are shown.
    Answer(Work, Form),
    Select(Selecting<'a>),
    Extend(Extending<'a>),
    Convert(Converting<'a>),
}

/// The bytes of an argument's word.
fn bytes_given<'a>(line: &'a Words, words: &ArgMatches<'a>, id: &str) -> &'a [u8]
    ensures { result.now ≡ bytes_named line.now (word_or_none (given words.now id.now)) }
{
    line.bytes_of(word_given(words, id))
}

/// What the words ask of `csv`.
fn selecting_given<'a>(
    alloc: Global,
    line: &'a Words,
    words: &ArgMatches<'a>,
) -> Result<Selecting<'a>, WordFault>
    ensures asks { IfOk result (Selects line.now words.now) }
    ensures refused { (o : ListOption) → result ≡ Err (NoList o) → IsNoList words.now o }
    ensures memory { result ≡ Err Memory → GivesSomeList words.now }
{
    let pick = pick_given(alloc, words)?;
    Ok(Selecting {
        file: bytes_given(line, words, "FILE"),
        variable: bytes_given(line, words, "VAR"),
        pick,
        style: style_given(words),
        texts: flag_given(words, "text"),
    })
}

/// What the words ask of `extend`.
fn extending_given<'a>(line: &'a Words, words: &ArgMatches<'a>) -> Extending<'a>
    ensures { Extends line.now words.now result }
{
    Extending {
        file: bytes_given(line, words, "FILE"),
        more: more_given(words),
    }
}

/// What the words ask of `convert`.
fn converting_given<'a>(line: &'a Words, words: &ArgMatches<'a>) -> Converting<'a>
    ensures { Converts line.now words.now result }
{
    Converting {
        from: bytes_given(line, words, "IN"),
        to: bytes_given(line, words, "OUT"),
        version: version_given(words),
    }
}

/// What the words of a command ask for.
pub fn task_given<'a>(
    alloc: Global,
    line: &'a Words,
    command: &str,
    words: &ArgMatches<'a>,
) -> Result<Task<'a>, WordFault>
    ensures asks { IfOk result (AsksFor line.now command.now words.now) }
    ensures refused { (o : ListOption) → result ≡ Err (NoList o) → IsNoList words.now o }
    ensures taken { (command.now ≡ codes "csv" → ⊥) → IsOk result }
    ensures memory { result ≡ Err Memory → GivesSomeList words.now }
{
    if command == "csv" {
        return Ok(Task::Select(selecting_given(alloc, line, words)?));
    }
    if command == "extend" {
        return Ok(Task::Extend(extending_given(line, words)));
    }
    if command == "convert" {
        return Ok(Task::Convert(converting_given(line, words)));
    }
    Ok(Task::Answer(work_given(command, words), form_given(command, words)))
}
