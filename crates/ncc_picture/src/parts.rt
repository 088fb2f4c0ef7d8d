//! The variables as they are drawn.

ghost use Rattle.std.specs.Prelude.{◌≡◌, ◌+◌, ◌<◌, ◌≤◌, ◌^◌, IfOk};
ghost use Rattle.ncc_picture.specs.Parts.{bytes_without_line, line_of, lines_after, other_bytes, parts_of};

use crate::choosing::has_number;
use ncc_layout::Extent;
use std::alloc::{AllocError, Global};

/// A variable as it is drawn.
#[derive(Clone, Copy, Debug, PartialEq, Eq)]
pub struct Part {
    pub extent: Extent,
    /// Where all before it ends.
    pub past: u128,
    /// The number of its line, counted from 0, if it has one.
    pub line: Option<u64>,
}

/// The number of a variable's line, if it has one.
fn line_of(is_large: bool, lines: u64) -> Option<u64>
    ensures { result ≡ line_of is_large lines }
{
    if is_large { Some(lines) } else { None }
}

/// How many variables have a line, with this one.
fn lines_after(is_large: bool, lines: u64) -> u64
    requires { lines < 2 ^ 63 }
    ensures value { result ≡ lines_after is_large lines }
    ensures few { result ≤ lines + 1 }
{
    if is_large { lines + 1 } else { lines }
}

/// The variables, of which these extents are in the order of their begins, and these are the greatest.
pub fn parts_of(
    alloc: Global,
    header_length: u64,
    large: &[Extent],
    extents: &[Extent],
) -> Result<Vec<Part>, AllocError>
    ensures { IfOk result (λ v. v.items ≡ parts_of large.now header_length 0 extents.now) }
{
    let mut parts = Vec::new(alloc);
    let mut past = header_length as u128;
    let mut lines = 0;
    for extent in extents {
        let is_large = has_number(large, extent.variable);
        parts.push(Part {
            extent: *extent,
            past,
            line: line_of(is_large, lines),
        })?;
        past = past.max(extent.end());
        lines = lines_after(is_large, lines);
    }
    Ok(parts)
}

/// The bytes of a variable that has no line.
fn bytes_without_line(part: &Part) -> u64
    ensures { result ≡ bytes_without_line part.now }
{
    match part.line {
        Some(_) => 0,
        None => part.extent.slab,
    }
}

/// The bytes of all variables that have no line.
pub fn other_bytes(parts: &[Part]) -> u128
    ensures { result ≡ other_bytes parts.now }
{
    let mut bytes = 0;
    for part in parts {
        bytes += bytes_without_line(part) as u128;
    }
    bytes
}
