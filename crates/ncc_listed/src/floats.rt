//! Floats as tokens of JSON.

ghost use Rattle.std.specs.Prelude.{◌≡◌, ◌++◌, ◌∷◌, [], true, OnOk};
ghost use Rattle.std.specs.Float.Ieee.{binary32, binary64};
ghost use Rattle.std.specs.Str.{IsUtf8};
ghost use Rattle.json.specs.Print.{IsNumber};
ghost use Rattle.ncc_decimal.specs.Printed.{float_text};
ghost use Rattle.ncc_decimal.specs.Texts.{text_of};
ghost use Rattle.ncc_listed.specs.Values.{bits_token, decimal_token, is_finite};

use json::Writer;
use ncc_decimal::{Text, text32, text64};
use std::alloc::{AllocError, Global};

/// Adds the bits of a float, as a text.
pub fn put_bits(alloc: Global, out: &mut Writer, bytes: &[u8]) -> Result<(), AllocError>
    ensures tokens { OnOk result (out.new.tokens ≡ out.old.tokens ++ bits_token bytes.now ∷ []) }
    ensures before { out.new.before ≡ out.old.before }
{
    let digits = hex::encode(alloc, bytes)?;
    let mut text = String::new(alloc);
    text.push_str("0x")?;
    text.push_str(digits.as_str())?;
    out.string(text.as_str())
}

/// Adds the decimal of a float: as a number where it is one, else as a text.
fn put_decimal(out: &mut Writer, is_number: bool, decimal: Text) -> Result<(), AllocError>
    requires utf8 { IsUtf8 (text_of decimal) }
    requires number { is_number ≡ true → IsNumber (text_of decimal) }
    ensures tokens { OnOk result (out.new.tokens ≡ out.old.tokens ++ decimal_token is_number (text_of decimal) ∷ []) }
    ensures before { out.new.before ≡ out.old.before }
{
    let Ok(text) = std::str::from_utf8(decimal.as_slice()) else {
        unreachable!();
    };
    if is_number {
        return out.number(text);
    }
    out.string(text)
}

/// Adds the decimal of a float by its bits.
pub fn put_float(out: &mut Writer, bits: u32) -> Result<(), AllocError>
    ensures tokens { OnOk result (out.new.tokens
        ≡ out.old.tokens ++ decimal_token (is_finite binary32 bits) (float_text binary32 bits) ∷ []) }
    ensures before { out.new.before ≡ out.old.before }
{
    put_decimal(out, bits % 0x8000_0000 < 0x7f80_0000, text32(bits))
}

/// Adds the decimal of a double by its bits.
pub fn put_double(out: &mut Writer, bits: u64) -> Result<(), AllocError>
    ensures tokens { OnOk result (out.new.tokens
        ≡ out.old.tokens ++ decimal_token (is_finite binary64 bits) (float_text binary64 bits) ∷ []) }
    ensures before { out.new.before ≡ out.old.before }
{
    put_decimal(
        out,
        bits % 0x8000_0000_0000_0000 < 0x7ff0_0000_0000_0000,
        text64(bits),
    )
}
