//! The parts of a header.

ghost use Rattle.std.specs.Prelude.{◌≡◌, ℕ, List};
ghost use Rattle.ncc_parts.specs.Parts.{ends_from, part_at};

use ncc_header::Part;

/// A part, and the offset of the first byte after it.
#[derive(Clone, Copy, Debug, PartialEq, Eq)]
pub struct Piece {
    pub part: Part,
    pub end: u64,
}

/// The part that has the byte at this offset, of parts that follow one another from offset 0 on.
pub fn part_of(pieces: &[Piece], offset: u64) -> Option<Part>
    requires { (parts : List (Part × List ℕ)) × (pieces.now ≡ ends_from 0 parts) }
    ensures { (parts : List (Part × List ℕ)) → pieces.now ≡ ends_from 0 parts → result ≡ part_at offset parts }
{
    let number = pieces.partition_point(|piece| piece.end <= offset);
    match pieces.get(number) {
        Some(piece) => Some(piece.part),
        None => None,
    }
}
