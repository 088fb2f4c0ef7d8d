//! What a target made.

/// What stands under one of the two names because the target made it.
#[derive(Clone, Copy, Debug, PartialEq, Eq)]
pub enum Entry {
    /// Nothing.
    Absent,
    /// A file.
    Made,
    /// A file that couldn't be removed.
    Stuck,
}

/// What a target made since its part was made last.
#[derive(Clone, Copy, Debug, PartialEq, Eq)]
pub struct Entries {
    pub part: Entry,
    pub name: Entry,
    /// The bytes of the part are on the disk.
    pub settled: bool,
    /// The system took no second name for the part when it was last asked.
    pub unlinked: bool,
}

/// What came of giving the part a second name.
#[derive(Clone, Copy, Debug, PartialEq, Eq)]
pub enum Linked {
    Done,
    /// A file has the name, or the system failed.
    Failed,
    /// The file system has no second names.
    Refused,
}
