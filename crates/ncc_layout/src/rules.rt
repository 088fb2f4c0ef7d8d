//! The layout rules, each in a file of its own that is named for its fault: which variable breaks it first. That no
//! size is too large is judged where sizes are found (`sizing`).

pub mod fixed_after_records;
pub mod in_header;
pub mod overlap;
pub mod record_window;
pub mod truncated;
