//! The text of an index.

ghost use Rattle.std.specs.Prelude.{◌≡◌, ◌≤◌, decimal};

use crate::written::write_unsigned;

/// As many digits as an index has at most.
const SIZE: usize = 20;

/// A short text in an array, at whose end it stands.
#[derive(Clone, Copy)]
pub struct Word {
    bytes: [u8; 20],
    start: usize,
    ghost within: { start ≤ 20 },
}

impl Word {
    ghost use Rattle.ncc_csv.specs.Word.{word_text};

    pub fn as_slice(&self) -> &[u8]
        ensures { result.now ≡ word_text self.now }
    {
        self.bytes.split_at(self.start).1
    }

    /// An unsigned integer in decimal.
    pub fn unsigned(n: u64) -> Word
        ensures { word_text result ≡ decimal n }
    {
        let mut bytes = [0; SIZE];
        let start = write_unsigned(n, &mut bytes, SIZE);
        Word { bytes, start }
    }
}
