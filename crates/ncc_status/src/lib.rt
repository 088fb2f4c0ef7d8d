//! What a run leaves: its status, what is still to be written, and what is said of words that aren't taken.
#![tactic(auto)]

mod finishing;
mod word_faults;

pub use finishing::{Ended, USAGE, end, explain, finish, flush_answer, show, tell_all};
pub use word_faults::refuse_words;
