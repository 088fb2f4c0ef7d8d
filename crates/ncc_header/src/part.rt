//! The parts of a header.

/// A part of a header, with the numbers of what it is of.
#[derive(Clone, Copy, Debug, PartialEq, Eq)]
pub enum Part {
    /// The letters and the version.
    Magic,
    /// The number of records.
    NumRecs,
    /// The tag of the list of dimensions, and their number.
    DimList,
    Dim(usize),
    /// The tag of the list of global attributes, and their number.
    GlobalList,
    Global(usize),
    /// The tag of the list of variables, and their number.
    VarList,
    /// The name of a variable, and its dimensions.
    Var(usize),
    /// The tag of the list of a variable's attributes, and their number.
    AttrList(usize),
    /// An attribute of a variable: the variable's number, and that of the attribute.
    Attr(usize, usize),
    /// The type, the vsize and the begin of a variable.
    Place(usize),
}
