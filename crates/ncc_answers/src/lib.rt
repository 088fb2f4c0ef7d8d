//! What a command comes to and what a file is asked; how an answer is shown: by its lines, in brief or as an object; its
//! status; and lists of names.
#![tactic(auto)]

mod answer;
mod form;
mod judging;
mod names;
mod objects;
mod sending;
mod statuses;
mod work;

pub use answer::{Answer, answer_of_sent};
pub use form::Form;
pub use judging::answer_of_report;
pub use names::{FileNames, names_in};
pub use sending::send_shown;
pub use statuses::{status, worse};
pub use work::Work;
