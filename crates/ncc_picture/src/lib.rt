//! A picture of where everything in a file lies: its bytes as a bar, one record as another, and a line for each of the
//! greatest variables.
#![tactic(auto)]

mod bands;
mod choosing;
mod document;
mod drawing;
mod file_bar;
mod frame;
mod marks;
mod parts;
mod record_bar;
mod rows;
mod spans;
mod variables;
mod whole;
mod words;

pub use drawing::picture_engine;
