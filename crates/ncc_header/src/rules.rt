//! The rules of the grammar, each in a file of its own: what its fields are judged for, the step over each field, and
//! what is found whole at the front of a piece. What is taken at once stands beside it (`whole_dim`, `whole_attr`,
//! `whole_var`). Which field has which size is in `step`, and how many bytes follow it at least in `least`.

pub mod attr;
pub mod dim;
pub mod list;
pub mod magic;
pub mod name;
pub mod numrecs;
pub mod var;
pub mod whole_attr;
pub mod whole_dim;
pub mod whole_var;
