//! The tags of a header's lists.

/// Before the dimensions.
pub const NC_DIMENSION: u32 = 10;

/// Before the variables.
pub const NC_VARIABLE: u32 = 11;

/// Before attributes, of the file or of a variable.
pub const NC_ATTRIBUTE: u32 = 12;
