//! The rows that `ncc csv` prints, and how they are sent to a sink.
#![tactic(auto)]

mod block;
mod cell;
mod empty_texts;
mod gathered;
mod gathering;
mod heads;
pub mod laws;
mod named;
mod names;
mod numbers;
mod parts;
mod pick;
mod refusals;
mod row;
mod sending;
mod sheet;
mod text_parts;
mod text_row;
mod word;
mod written;

pub use named::var_named;
pub use names::send_names;
pub use numbers::parse_list;
pub use pick::Pick;
pub use refusals::send_refusal;
pub use sending::send_part;
pub use sheet::send_sheet;
