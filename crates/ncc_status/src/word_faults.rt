//! What is said of words that aren't taken.

ghost use Rattle.std.specs.Prelude.{◌≡◌};
ghost use Rattle.ncc_status.specs.Status.{status_of_words};

use crate::finishing::{USAGE, finish};
use clap::ArgMatches;
use ncc_answers::Answer;
use ncc_disk::tell_name;
use ncc_tasks::{ListOption, WordFault, option_name};
use std::io::Write;

/// Says on `err` which list isn't taken.
fn tell_list<E: Write>(option: ListOption, words: &ArgMatches, err: &mut E) {
    let _ = err.write_all(b"ncc: --");
    let _ = err.write_all(option_name(option).as_bytes());
    let _ = err.write_all(b": '");
    tell_name(
        words.get_str(option_name(option)).unwrap_or("").as_bytes(),
        err,
    );
    let _ = err.write_all(b"' is no list of numbers, each at most 18446744073709551615\n");
}

/// Says on `err` that the words aren't taken, and with `told` which, as far as that can be written, and gives the
/// status.
pub fn refuse_words<E: Write>(fault: WordFault, words: &ArgMatches, told: bool, err: &mut E) -> u8
    ensures { result ≡ status_of_words fault }
{
    match fault {
        WordFault::NoList(option) => {
            let _ = err.write_all(b"error usage\n");
            if told {
                tell_list(option, words, err);
            }
            USAGE
        }
        WordFault::Memory => finish(Answer::Memory, err),
    }
}
