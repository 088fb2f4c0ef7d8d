//! What the words of a command line ask for.
#![tactic(auto)]

mod given;
mod picking;
mod task;
mod words;

pub use given::LIMIT;
pub use picking::{ListOption, WordFault, option_name};
pub use task::{Converting, Extending, Selecting, Task, task_given};
pub use words::{Words, read_words};
