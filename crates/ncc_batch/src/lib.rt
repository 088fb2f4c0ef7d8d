//! Several files in one call.
#![tactic(auto)]

mod batch;
mod shelf;
mod source;
mod texts;

pub use batch::answer_all;
pub use shelf::Shelf;
pub use source::list_source;
pub use texts::write_text;
