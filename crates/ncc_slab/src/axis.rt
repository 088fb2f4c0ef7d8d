//! A dimension along which more than one index is selected.

/// How far each index of a dimension moves a place, in bytes, and how many selected elements share an index.
#[derive(Clone, Copy)]
pub struct Axis {
    pub step: u64,
    pub width: u64,
}
