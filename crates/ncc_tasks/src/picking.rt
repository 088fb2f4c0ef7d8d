//! What the words of a command line pick of a variable.

ghost use Rattle.std.specs.Prelude.{◌≡◌, Err, codes, IfOk, IsSome};
ghost use Rattle.ncc_tasks.specs.Given.{GivesList, given};
ghost use Rattle.ncc_tasks.specs.Options.{GivesSomeList, IsNoList, option_text};
ghost use Rattle.ncc_tasks.specs.declared.picking.ListOption.{ListOption};
ghost use Rattle.ncc_tasks.specs.declared.picking.WordFault.TheVariants.{Memory, NoList};

use clap::ArgMatches;
use ncc_csv::{Pick, parse_list};
use ncc_values::Seq;
use std::alloc::{AllocError, Global};

/// Why the words of a selection aren't taken.
#[derive(Clone, Copy, Debug, PartialEq, Eq)]
pub enum WordFault {
    /// A list isn't digits with single commas between its numbers, or a number is past 2^64 - 1.
    NoList(ListOption),
    Memory,
}

/// An option that takes a list.
#[derive(Clone, Copy, Debug, PartialEq, Eq)]
pub enum ListOption {
    Start,
    Count,
    Stride,
}

/// The name of an option.
pub fn option_name(option: ListOption) -> &'static str
    ensures { result.now ≡ option_text option }
{
    match option {
        ListOption::Start => "start",
        ListOption::Count => "count",
        ListOption::Stride => "stride",
    }
}

impl From<AllocError> for WordFault {
    ghost from_gives = { λ _ e. e ≡ Memory };

    fn from(_e: AllocError) -> WordFault {
        WordFault::Memory
    }
}

/// The list that an argument gives, where it is given.
fn list_given(
    alloc: Global,
    words: &ArgMatches,
    option: ListOption,
) -> Result<Option<Seq<u64>>, WordFault>
    ensures gives { IfOk result (GivesList (given words.now (option_text option))) }
    ensures refused { (o : ListOption) → result ≡ Err (NoList o) → (o ≡ option) × IsNoList words.now o }
    ensures memory { result ≡ Err Memory → IsSome (given words.now (option_text option)) }
{
    let Some(text) = words.get_str(option_name(option)) else {
        return Ok(None);
    };
    match parse_list(alloc, text)? {
        Some(numbers) => Ok(Some(numbers)),
        None => Err(WordFault::NoList(option)),
    }
}

/// What the words give of a selection.
pub fn pick_given(alloc: Global, words: &ArgMatches) -> Result<Pick, WordFault>
    ensures start { IfOk result (λ p. GivesList (given words.now (codes "start")) p.start) }
    ensures count { IfOk result (λ p. GivesList (given words.now (codes "count")) p.count) }
    ensures stride { IfOk result (λ p. GivesList (given words.now (codes "stride")) p.stride) }
    ensures refused { (o : ListOption) → result ≡ Err (NoList o) → IsNoList words.now o }
    ensures memory { result ≡ Err Memory → GivesSomeList words.now }
{
    Ok(Pick {
        start: list_given(alloc, words, ListOption::Start)?,
        count: list_given(alloc, words, ListOption::Count)?,
        stride: list_given(alloc, words, ListOption::Stride)?,
    })
}
