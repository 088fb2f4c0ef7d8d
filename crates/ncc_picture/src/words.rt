//! What a picture says.

ghost use Rattle.std.specs.Prelude.{◌≡◌, IfOk};
ghost use Rattle.ncc_lines.specs.Words.{name_text};
ghost use Rattle.ncc_places.specs.Words.{record_line, rest_line};
ghost use Rattle.ncc_picture.specs.Words.{class_of, counted_words, cut, file_label, others_words, part_words, record_label};

use crate::parts::Part;
use ncc_header::Schema;
use ncc_lines::{push_decimal, push_name};
use ncc_places::{
    Records, push_between, push_extent, push_record_line, push_rest, push_wide, variable_name,
};
use std::alloc::{AllocError, Global};

/// How many characters of a name are shown.
const SHOWN: usize = 40;

const _: () = prove!(SHOWN == 40);

/// A name, cut where it is long.
fn short_name(alloc: Global, name: &[u8]) -> Result<Vec<u8>, AllocError>
    ensures { IfOk result (λ v. v.items ≡ cut (name_text name.now)) }
{
    let mut text = Vec::new(alloc);
    push_name(&mut text, name)?;
    if text.len() > SHOWN {
        text.truncate(SHOWN);
        text.extend_from_slice(b"..")?;
    }
    Ok(text)
}

/// What is said of a variable.
#[tactic(auto, unfolding(crate::specs::Words::part_words))]
pub fn part_words(alloc: Global, schema: &Schema, part: &Part) -> Result<Vec<u8>, AllocError>
    ensures { IfOk result (λ v. v.items ≡ part_words schema.now part.now) }
{
    let number = part.extent.variable;
    let name = short_name(alloc, variable_name(schema, number))?;
    let mut out = Vec::new(alloc);
    out.extend_from_slice(b"variable ")?;
    push_decimal(&mut out, number as u64)?;
    out.extend_from_slice(b" ")?;
    out.extend_from_slice(&name)?;
    push_extent(&mut out, &part.extent)?;
    push_between(&mut out, part.past, part.extent.begin)?;
    Ok(out)
}

/// A word and a number.
pub fn counted_words(alloc: Global, word: &[u8], n: u128) -> Result<Vec<u8>, AllocError>
    ensures { IfOk result (λ v. v.items ≡ counted_words word.now n) }
{
    let mut out = Vec::new(alloc);
    out.extend_from_slice(word)?;
    push_wide(&mut out, n)?;
    Ok(out)
}

/// What stands above the bar of the file.
#[tactic(auto, unfolding(crate::specs::Words::file_label))]
pub fn file_label() -> &'static [u8]
    ensures { result.now ≡ file_label }
{
    b"the file, bytes 0 to "
}

/// What stands above the bar of a record.
#[tactic(auto, unfolding(crate::specs::Words::record_label))]
pub fn record_label() -> &'static [u8]
    ensures { result.now ≡ record_label }
{
    b"one record, bytes 0 to "
}

/// What is said of the variables without a line of their own.
#[tactic(auto, unfolding(crate::specs::Words::others_words))]
pub fn others_words(alloc: Global, count: usize, bytes: u128) -> Result<Vec<u8>, AllocError>
    ensures { IfOk result (λ v. v.items ≡ others_words count bytes) }
{
    let mut out = Vec::new(alloc);
    out.extend_from_slice(b"others ")?;
    push_decimal(&mut out, count as u64)?;
    out.extend_from_slice(b" bytes ")?;
    push_wide(&mut out, bytes)?;
    Ok(out)
}

/// What is said of the records.
pub fn records_words(alloc: Global, records: Records) -> Result<Vec<u8>, AllocError>
    ensures { IfOk result (λ v. v.items ≡ record_line records) }
{
    let mut out = Vec::new(alloc);
    push_record_line(&mut out, records)?;
    Ok(out)
}

/// What is said of the bytes after all, or of those that are missing.
pub fn rest_words(alloc: Global, file_length: u64, past: u128) -> Result<Vec<u8>, AllocError>
    ensures { IfOk result (λ v. v.items ≡ rest_line file_length past) }
{
    let mut out = Vec::new(alloc);
    push_rest(&mut out, file_length, past)?;
    Ok(out)
}

/// The class of a variable, by its line.
pub fn class_of(line: Option<u64>) -> [u8; 2]
    ensures { result ≡ class_of line }
{
    match line {
        Some(line) => [b'c', b'0' + (line % 9) as u8],
        None => *b"c9",
    }
}
