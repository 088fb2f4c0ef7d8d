//! Bytes as they are printed.

ghost use Rattle.std.specs.Prelude.{◌≡◌, ◌++◌, ◌<◌, ◌≤◌, length, take, IfOk, OnOk};
ghost use Rattle.std.specs.List.{flat_map};
ghost use Rattle.ncc_lines.specs.Words.{hex_digit, byte_digits, is_plain, escaped, name_text};

use crate::escapes::{FEW, has_room, push_few};
use crate::hex::byte_digits;
use std::alloc::AllocError;

/// A hexadecimal digit, in lower case.
pub fn digit(n: u8) -> u8
    requires { n < 16 }
    ensures { result ≡ hex_digit n }
{
    if n < 10 { b'0' + n } else { b'a' - 10 + n }
}

/// Adds the two digits of a byte.
fn push_digits(out: &mut Vec<u8>, b: u8) -> Result<(), AllocError>
    ensures { OnOk result (out.new.items ≡ out.old.items ++ byte_digits b) }
{
    out.extend_from_slice(&byte_digits(b))
}

/// Adds the digits of all bytes.
pub fn push_bits(out: &mut Vec<u8>, bytes: &[u8]) -> Result<(), AllocError>
    ensures { OnOk result (out.new.items ≡ out.old.items ++ flat_map byte_digits bytes.now) }
{
    for b in bytes {
        push_digits(out, *b)?;
    }
    Ok(())
}

/// Whether a byte prints as it is.
fn prints_plain(b: u8) -> bool
    ensures { result ≡ is_plain b }
{
    32 < b && b < 127 && b != b'\\'
}

/// How many bytes at the front print as they are.
fn plain_count(bytes: &[u8]) -> usize
    ensures within { result ≤ length bytes.now }
    ensures plain { name_text (take result bytes.now) ≡ take result bytes.now }
{
    for (i, b) in bytes.iter().enumerate() {
        if !prints_plain(*b) {
            return i;
        }
    }
    bytes.len()
}

/// Adds a byte of a name, as it is printed.
pub fn push_escaped(out: &mut Vec<u8>, b: u8) -> Result<(), AllocError>
    ensures { OnOk result (out.new.items ≡ out.old.items ++ escaped b) }
{
    if prints_plain(b) {
        out.push(b)?;
        return Ok(());
    }
    out.extend_from_slice(b"\\x")?;
    push_digits(out, b)
}

/// Adds the front of a name whose bytes print as they are, at once, and gives the rest.
fn push_plain<'a>(out: &mut Vec<u8>, name: &'a [u8]) -> Result<&'a [u8], AllocError>
    ensures rest { IfOk result (λ rest. out.new.items ++ name_text rest.now ≡ out.old.items ++ name_text name.now) }
    ensures shorter { IfOk result (λ rest. length rest.now ≤ length name.now) }
{
    let (plain, rest) = name.split_at(plain_count(name));
    out.extend_from_slice(plain)?;
    Ok(rest)
}

/// Adds the front of a name whose bytes print as they are, and the byte after it, and gives the rest.
fn push_run<'a>(out: &mut Vec<u8>, name: &'a [u8]) -> Result<&'a [u8], AllocError>
    requires { 0 < length name.now }
    ensures rest { IfOk result (λ rest. out.new.items ++ name_text rest.now ≡ out.old.items ++ name_text name.now) }
    ensures shorter { IfOk result (λ rest. length rest.now < length name.now) }
{
    let rest = push_plain(out, name)?;
    let Some((first, after)) = rest.split_first() else {
        return Ok(rest);
    };
    push_escaped(out, *first)?;
    Ok(after)
}

/// Adds a name: a few bytes at a time where there is room, and run by run where there is none, which asks for memory
/// a run at a time. After a few that all print as they are the rest of their run is added at once.
pub fn push_name(out: &mut Vec<u8>, name: &[u8]) -> Result<(), AllocError>
    ensures { OnOk result (out.new.items ≡ out.old.items ++ name_text name.now) }
{
    let mut rest = name;
    let mut goes_on = false;
    while !rest.is_empty() {
        if goes_on || !has_room(out) {
            rest = push_run(out, rest)?;
            goes_on = false;
        } else {
            let (piece, after) = rest.split_at(rest.len().min(FEW));
            goes_on = push_few(out, piece);
            rest = after;
        }
    }
    Ok(())
}

/// Adds a name to a list of its own: run by run to its end where there is no room at its start, as most short names have
/// it there, and else as `push_name` does. It is kept out of line: inlined, it makes short texts slower.
#[inline(never)]
pub fn push_text(out: &mut Vec<u8>, name: &[u8]) -> Result<(), AllocError>
    ensures { OnOk result (out.new.items ≡ out.old.items ++ name_text name.now) }
{
    if has_room(out) {
        return push_name(out, name);
    }
    let mut rest = push_plain(out, name)?;
    while let Some((first, after)) = rest.split_first() {
        push_escaped(out, *first)?;
        rest = push_plain(out, after)?;
    }
    Ok(())
}
