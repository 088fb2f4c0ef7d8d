//! What is asked of a file.

use ncc_json::Wording;
use ncc_lines::FloatStyle;

/// What is asked of a file, with at most so many bytes of header.
#[derive(Clone, Copy, Debug, PartialEq, Eq)]
pub enum Work {
    /// Whether it passes, and where `strict` without a note.
    Check {
        limit: u64,
        strict: bool,
    },
    /// The same, and what stands behind each fault and note.
    Explain {
        limit: u64,
        strict: bool,
        wording: Wording,
    },
    /// What its header says.
    List {
        limit: u64,
        style: FloatStyle,
        wording: Wording,
    },
    /// Where everything in it lies.
    Layout {
        limit: u64,
        wording: Wording,
    },
    /// The same as a picture.
    Picture {
        limit: u64,
    },
}
