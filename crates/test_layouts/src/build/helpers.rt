//! Attributes of variables that may not be there.

use ncc_build::{SchemaBuilder, WriteFault};
use ncc_values::Values;

/// An attribute of a variable, if that is there.
pub fn attr(
    builder: &mut SchemaBuilder,
    var: usize,
    name: &[u8],
    values: Values,
) -> Result<(), WriteFault> {
    if var >= builder.schema().vars.len() {
        return Err(WriteFault::BadDimId);
    }
    builder.attr(var, name, values)
}
