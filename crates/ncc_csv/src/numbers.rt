//! Lists of numbers in words of the command line.

ghost use Rattle.std.specs.Prelude.{◌≡◌, map, IfOk};
ghost use Rattle.std.specs.Option.{SomeIff};
ghost use Rattle.std.specs.Prelude.{MatchOption, ℕ, List};
ghost use Rattle.std.specs.Str.Parse.{digits_value};
ghost use Rattle.ncc_csv.specs.Numbers.{IsNumber, between_commas, IsListOf};

use ncc_header::Seq;
use std::alloc::{AllocError, Global};

/// A number of digits alone.
fn parse_number(text: &str) -> Option<u64>
    ensures { SomeIff result (IsNumber text.now) (digits_value 10 text.now) }
{
    let bytes = text.as_bytes();
    if !bytes.is_empty() && bytes[0] == b'+' {
        return None;
    }
    match text.parse::<u64>() {
        Ok(n) => Some(n),
        Err(_) => None,
    }
}

/// What stands between commas.
fn split_at_commas<'a>(alloc: Global, text: &'a str) -> Result<Vec<&'a str>, AllocError>
    ensures { IfOk result (λ v. map (λ x. x.now) v.items ≡ between_commas text.now) }
{
    text.split(',').collect(alloc)
}

/// The numbers of a list: digits, with single commas between them. `None` where the text is no such list, as an
/// empty one is, or a number has a sign or is past 2^64 - 1.
pub fn parse_list(alloc: Global, text: &str) -> Result<Option<Seq<u64>>, AllocError>
    ensures { IfOk result (λ o. MatchOption o ((numbers : List ℕ) → IsListOf text.now numbers → ⊥) (IsListOf text.now)) }
{
    let mut numbers = Vec::new(alloc);
    let pieces = split_at_commas(alloc, text)?;
    for piece in pieces.as_slice() {
        match parse_number(piece) {
            Some(n) => numbers.push(n)?,
            None => return Ok(None),
        }
    }
    Ok(Some(Seq::from_vec(numbers)))
}
