//! What stands whole at the front of a piece: bytes, numbers, and padding that is zero.

ghost use Rattle.std.specs.Prelude.{◌≡◌, ℕ, ◌≤◌, ◌<◌, List, length, IfSome};
ghost use Rattle.ncc_values.specs.Version.{count_width_of};
ghost use Rattle.ncc_values.specs.Numbers.{number_of};
ghost use Rattle.ncc_header.specs.AtFront.{AtFront, StartsWith, padded};

use crate::judge::are_zero;
use ncc_values::{Version, number, pad};

/// So many bytes at the front of a piece, and the bytes after them.
#[inline]
pub fn split_front(piece: &[u8], n: u64) -> Option<(&[u8], &[u8])>
    ensures { IfSome result (λ r. StartsWith piece.now r.0.now n r.1.now) }
{
    if n > piece.len() as u64 {
        return None;
    }
    Some(piece.split_at(n as usize))
}

/// The number whose bytes are these many, 1 to 8, and the bytes after them.
#[inline]
pub fn number_at(piece: &[u8], width: u64) -> Option<(u64, &[u8])>
    requires some { 0 < width }
    requires few { width ≤ 8 }
    ensures { IfSome result (λ r. (front : List ℕ) × StartsWith piece.now front width r.1.now
        × (r.0 ≡ number_of front)) }
{
    let (bytes, after) = split_front(piece, width)?;
    Some((number(bytes), after))
}

/// A count, whatever number it is, and the bytes after it.
#[inline]
pub fn any_count(version: Version, piece: &[u8]) -> Option<(u64, &[u8])>
    ensures { IfSome result (λ r. (front : List ℕ) × StartsWith piece.now front (count_width_of version) r.1.now
        × (r.0 ≡ number_of front)) }
{
    match version {
        Version::V1 | Version::V2 => number_at(piece, 4),
        Version::V5 => number_at(piece, 8),
    }
}

/// So many bytes and their padding, where it is zero.
#[inline]
pub fn with_padding(piece: &[u8], n: u64) -> Option<(&[u8], &[u8])>
    ensures at_front { IfSome result (λ r. AtFront (padded n) r.0.now piece.now r.1.now) }
    ensures length { IfSome result (λ r. length r.0.now ≡ n) }
    ensures less { IfSome result (λ r. length r.1.now ≤ length piece.now) }
{
    let (bytes, rest) = split_front(piece, n)?;
    let (zeros, after) = split_front(rest, pad(n))?;
    if !are_zero(zeros) {
        return None;
    }
    Some((bytes, after))
}
