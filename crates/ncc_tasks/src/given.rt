//! What the words of a command line ask for.

ghost use Rattle.std.specs.Prelude.{◌≡◌, Some, codes};
ghost use Rattle.ncc_tasks.specs.Given.{GivesFlag, GivesNumber, GivesStyle, GivesWording, given, word_or_none};
ghost use Rattle.ncc_tasks.specs.Tasks.{ChecksAs, LaysOutAs, ListsAs, ShowsAnswer, ShowsCheck, TellsAs};
ghost use Rattle.ncc_lines.specs.declared.style.FloatStyle.{FloatStyle};

use clap::ArgMatches;
use ncc_answers::{Form, Work};
use ncc_json::Wording;
use ncc_lines::FloatStyle;
use ncc_values::Version;

/// How long a header may be, in bytes, where the command line doesn't say.
pub const LIMIT: u64 = 67_108_864;

const _: () = prove!(LIMIT == 67_108_864);

/// A flag.
pub fn flag_given(words: &ArgMatches, id: &str) -> bool
    ensures { GivesFlag words.now id.now result }
{
    words.get_flag(id)
}

/// A number, or another one where it isn't given.
fn number_given(words: &ArgMatches, id: &str, other: u64) -> u64
    ensures { GivesNumber words.now id.now other result }
{
    words.get_one(id).unwrap_or(other)
}

/// The word of an argument, or an empty one.
pub fn word_given<'a>(words: &ArgMatches<'a>, id: &str) -> &'a str
    ensures { result.now ≡ word_or_none (given words.now id.now) }
{
    words.get_str(id).unwrap_or("")
}

/// How floats are shown.
pub fn style_given(words: &ArgMatches) -> FloatStyle
    ensures { GivesStyle words.now result }
{
    if flag_given(words, "decimal") {
        FloatStyle::Decimal
    } else {
        FloatStyle::Bits
    }
}

/// How an answer is put.
fn wording_given(words: &ArgMatches) -> Wording
    ensures { GivesWording words.now result }
{
    if flag_given(words, "json") {
        Wording::Members
    } else {
        Wording::Words
    }
}

/// How many records are to be added.
pub fn more_given(words: &ArgMatches) -> u64
    ensures { GivesNumber words.now (codes "N") 0 result }
{
    number_given(words, "N", 0)
}

/// What is asked of files by `check`.
fn checked_given(words: &ArgMatches) -> Work
    ensures { ChecksAs LIMIT words.now result }
{
    let limit = number_given(words, "max-header", LIMIT);
    let strict = flag_given(words, "strict");
    let told = flag_given(words, "explain");
    if flag_given(words, "json") {
        return Work::Explain {
            limit,
            strict,
            wording: Wording::Members,
        };
    }
    if told {
        return Work::Explain {
            limit,
            strict,
            wording: Wording::Words,
        };
    }
    Work::Check { limit, strict }
}

/// What is asked of files by `layout` without a picture.
fn told_given(words: &ArgMatches) -> Work
    ensures { TellsAs LIMIT words.now result }
{
    Work::Layout {
        limit: LIMIT,
        wording: wording_given(words),
    }
}

/// What is asked of files by `list`.
fn listed_given(words: &ArgMatches) -> Work
    ensures { ListsAs LIMIT words.now result }
{
    Work::List {
        limit: LIMIT,
        style: style_given(words),
        wording: wording_given(words),
    }
}

/// What is asked of files by `layout`.
fn laid_out_given(words: &ArgMatches) -> Work
    ensures { LaysOutAs LIMIT words.now result }
{
    match words.get_str("svg") {
        Some(_) => Work::Picture { limit: LIMIT },
        None => told_given(words),
    }
}

/// What is asked of files by `check`, `layout` or `list`.
pub fn work_given(command: &str, words: &ArgMatches) -> Work
    ensures check { command.now ≡ codes "check" → ChecksAs LIMIT words.now result }
    ensures layout { command.now ≡ codes "layout" → LaysOutAs LIMIT words.now result }
    ensures list { (command.now ≡ codes "check" → ⊥) → (command.now ≡ codes "layout" → ⊥)
        → ListsAs LIMIT words.now result }
{
    if command == "check" {
        return checked_given(words);
    }
    if command == "layout" {
        return laid_out_given(words);
    }
    listed_given(words)
}

/// How files are shown by `check`.
fn check_form(words: &ArgMatches) -> Form
    ensures { ShowsCheck words.now result }
{
    let brief = flag_given(words, "brief");
    if flag_given(words, "json") {
        return Form::Object;
    }
    if brief { Form::Brief } else { Form::Lines }
}

/// How files are shown by `layout` and `list`.
fn answer_form(words: &ArgMatches) -> Form
    ensures { ShowsAnswer words.now result }
{
    if flag_given(words, "json") {
        Form::Object
    } else {
        Form::Lines
    }
}

/// How files are shown by `check`, `layout` or `list`.
pub fn form_given(command: &str, words: &ArgMatches) -> Form
    ensures check { command.now ≡ codes "check" → ShowsCheck words.now result }
    ensures others { (command.now ≡ codes "check" → ⊥) → ShowsAnswer words.now result }
{
    if command == "check" {
        return check_form(words);
    }
    answer_form(words)
}

/// The version of this word.
fn version_of(word: &str) -> Version
    ensures one { word.now ≡ codes "1" → result ≡ Version.V1 }
    ensures two { word.now ≡ codes "2" → result ≡ Version.V2 }
    ensures five { word.now ≡ codes "5" → result ≡ Version.V5 }
{
    match word {
        "1" => Version::V1,
        "2" => Version::V2,
        _ => Version::V5,
    }
}

/// The version that a file is converted to.
pub fn version_given(words: &ArgMatches) -> Version
    ensures one { given words.now (codes "to") ≡ Some (codes "1") → result ≡ Version.V1 }
    ensures two { given words.now (codes "to") ≡ Some (codes "2") → result ≡ Version.V2 }
    ensures five { given words.now (codes "to") ≡ Some (codes "5") → result ≡ Version.V5 }
{
    version_of(word_given(words, "to"))
}
