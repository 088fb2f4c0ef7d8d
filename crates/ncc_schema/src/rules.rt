//! The rules of the grammar, each in a file of its own: how the bytes of its canonical spelling are put out, and how many
//! there are. The spellings are defined in `specs/Header.antt`, all on one page, as the grammar has them.

pub mod attr;
pub mod dim;
pub mod list;
pub mod name;
pub mod numrecs;
pub mod var;
