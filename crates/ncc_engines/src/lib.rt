//! What each command of `ncc` does, over any source, store and sink.
#![tactic(auto)]

mod checking;
mod converting;
mod extending;
mod listing;
mod planning;
mod selecting;

pub use checking::check_engine;
pub use converting::convert_engine;
pub use extending::{extend_engine, extend_file};
pub use listing::{list_engine, list_store_engine};
pub use ncc_answers::{Answer, answer_of_report, answer_of_sent};
pub use planning::plan;
pub use selecting::csv_engine;
