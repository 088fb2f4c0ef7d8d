//! Which variables are record variables.

ghost use Rattle.std.specs.Prelude.{◌≡◌};
ghost use Rattle.ncc_schema.specs.Schema.{is_record_var};

use crate::schema::{Dim, Var};

/// Is the variable's first dimension the record dimension?
pub fn is_record_var(dims: &[Dim], var: &Var) -> bool
    ensures { result ≡ is_record_var dims.now var.now }
{
    match var.dims.as_slice() {
        [] => false,
        [first, ..] => *first < dims.len() && dims[*first].length == 0,
    }
}
