//! Files of the system by their names: opened, made under a name that nothing has, and why one fails.
#![tactic(auto)]

mod new_file;
mod paths;
mod reasons;
mod watched;

pub use new_file::NewFile;
pub use paths::{folder_of, open_file, open_to_extend, open_to_read};
pub use reasons::{Reason, Trouble, reason_in, reason_of, tell_name, tell_trouble};
pub use watched::Watched;
