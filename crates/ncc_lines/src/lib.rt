//! The lines that `ncc` prints, and how they are sent to a sink.
#![tactic(auto)]

mod escape;
mod escapes;
mod heads;
mod hex;
mod page;
mod progress;
mod putting;
mod refusals;
mod sections;
mod send_error;
mod sending;
mod style;
mod texts;
mod values;
mod verdict;

pub use escape::{digit, push_name, push_text};
pub use heads::dim_name;
pub use hex::byte_digits;
pub use page::send_page;
pub use progress::{Progress, Unshown};
pub use putting::put_numbered;
pub use refusals::{send_append_refusal, send_records};
pub use send_error::SendError;
pub use sending::{send_fault, send_file_fault, send_header, send_report};
pub use style::FloatStyle;
pub use texts::{fault_name, push_at, push_decimal};
pub use verdict::{layout_name, note_name, push_ok};
