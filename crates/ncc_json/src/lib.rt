//! Members of the objects that `--json` prints.
#![tactic(auto)]

mod members;
mod values;
mod wording;

pub use members::{
    put_bytes_member, put_fault, put_list, put_number, put_object, put_text, put_two, put_wide,
};
pub use wording::Wording;
