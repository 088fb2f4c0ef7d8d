//! What is done to a name.

/// A step in what stands under a name.
#[derive(Drop)]
pub enum Step {
    /// A file has it now.
    Gives(Vec<u8>),
    /// No file has it any more.
    Takes,
    /// What stands there is on the disk.
    Settles,
}
