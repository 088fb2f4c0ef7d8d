//! How far long work is.

/// Is told how far long work is, and may show it. Nothing that is proved speaks of it.
pub trait Progress {
    /// So many rows of all are done.
    fn rows(&mut self, done: u64, all: u64);

    /// So many bytes more are done, of a file of so many.
    fn bytes(&mut self, more: u64, all: u64);

    /// Something else is to be shown now.
    fn end(&mut self);
}

/// Shows nothing.
#[derive(Clone, Copy, Debug)]
pub struct Unshown;

impl Progress for Unshown {
    fn rows(&mut self, _done: u64, _all: u64) {}

    fn bytes(&mut self, _more: u64, _all: u64) {}

    fn end(&mut self) {}
}
