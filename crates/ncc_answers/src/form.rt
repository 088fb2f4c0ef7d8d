//! How the answers of several files are shown.

/// How the answer of a file is shown.
#[derive(Clone, Copy, Debug, PartialEq, Eq)]
pub enum Form {
    /// All its lines, each with the path, a colon and a space before it.
    Lines,
    /// One line: the status, the first line of the answer, and the path, with tabs between them.
    Brief,
    /// One line: a JSON object with the path, the status and the members of the answer.
    Object,
}
