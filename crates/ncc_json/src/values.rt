//! Values of members.

ghost use Rattle.std.specs.Prelude.{◌≡◌, ◌++◌, ◌∷◌, [], OnOk, decimal};
ghost use Rattle.json.specs.Token.{string};
ghost use Rattle.ncc_json.specs.Members.{bytes_value, hex_value, wide_value};

use itoa::Buffer;
use json::Writer;
use std::alloc::{AllocError, Global};

/// Adds bytes as hexadecimal digits, in an object of their own.
fn put_hex(alloc: Global, out: &mut Writer, bytes: &[u8]) -> Result<(), AllocError>
    ensures tokens { OnOk result (out.new.tokens ≡ out.old.tokens ++ hex_value bytes.now) }
    ensures before { out.new.before ≡ out.old.before }
{
    let digits = hex::encode(alloc, bytes)?;
    out.begin_object()?;
    out.key("hex")?;
    out.string(digits.as_str())?;
    out.end_object()?;
    Ok(())
}

/// Adds bytes as a text; where they aren't UTF-8, as hexadecimal digits.
pub fn put_bytes(alloc: Global, out: &mut Writer, bytes: &[u8]) -> Result<(), AllocError>
    ensures tokens { OnOk result (out.new.tokens ≡ out.old.tokens ++ bytes_value bytes.now) }
    ensures before { out.new.before ≡ out.old.before }
{
    match std::str::from_utf8(bytes) {
        Ok(text) => out.string(text),
        Err(_) => put_hex(alloc, out, bytes),
    }
}

/// Adds a number as a text.
fn put_digits(out: &mut Writer, n: u128) -> Result<(), AllocError>
    ensures tokens { OnOk result (out.new.tokens ≡ out.old.tokens ++ string (decimal n) ∷ []) }
    ensures before { out.new.before ≡ out.old.before }
{
    let mut buffer = Buffer::new();
    out.string(buffer.format(n))
}

/// Adds a number; where it has more than 64 bits, as a text.
pub fn put_wide_value(out: &mut Writer, n: u128) -> Result<(), AllocError>
    ensures tokens { OnOk result (out.new.tokens ≡ out.old.tokens ++ wide_value n) }
    ensures before { out.new.before ≡ out.old.before }
{
    if n < 18_446_744_073_709_551_616 {
        return out.u64(n as u64);
    }
    put_digits(out, n)
}
