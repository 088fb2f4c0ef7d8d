//! Values as they are printed.

ghost use Rattle.std.specs.Prelude.{◌≡◌, ◌≤◌, ◌++◌, length, map, codes, OnOk};
ghost use Rattle.std.specs.List.{flat_map};
ghost use Rattle.ncc_decimal.specs.Texts.{text_of};
ghost use Rattle.ncc_lines.specs.Words.{bits_word};

use crate::escape::{push_bits, push_escaped, push_name};
use crate::style::FloatStyle;
use crate::values::integers::push_integers;
use ncc_decimal::{Text, text32, text64};
use ncc_values::{Char, F32Bits, F64Bits};
use std::alloc::AllocError;

/// How many values are printed at once: a number has at most 25 bytes, a character at most 4.
pub const PIECE: usize = 128;

/// A value of an attribute.
pub trait Printed: Copy {
    ghost use Rattle.std.specs.Prelude.{ℕ, List};
    ghost use Rattle.ncc_lines.specs.declared.style.FloatStyle.{FloatStyle};

    /// What it adds to a line: a number begins with a space.
    ghost text: { FloatStyle → Self → List ℕ };

    /// Adds its text.
    fn print(self, style: FloatStyle, out: &mut Vec<u8>) -> Result<(), AllocError>
        ensures { OnOk result (out.new.items ≡ out.old.items ++ text style self) };

    /// Adds the texts of a few values, one after the other.
    fn print_all(values: &[Self], style: FloatStyle, out: &mut Vec<u8>) -> Result<(), AllocError>
        requires { length values.now ≤ PIECE }
        ensures { OnOk result (out.new.items ≡ out.old.items ++ flat_map (text style) values.now) }
    {
        for value in values {
            value.print(style, out)?;
        }
        Ok(())
    }
}

/// The bytes of characters.
fn copy_chars(chars: &[Char], bytes: &mut [u8])
    requires { length chars.now ≡ length bytes.old }
    ensures { bytes.new ≡ map (λ c. c.0) chars.now }
{
    for (i, c) in chars.iter().enumerate() {
        bytes[i] = c.0;
    }
}

/// Adds a space and the bits of a float.
fn push_bits_word(out: &mut Vec<u8>, bytes: &[u8]) -> Result<(), AllocError>
    ensures { OnOk result (out.new.items ≡ out.old.items ++ bits_word bytes.now) }
{
    out.extend_from_slice(b" 0x")?;
    push_bits(out, bytes)
}

/// Adds a space and the decimal of a float.
fn push_decimal_word(out: &mut Vec<u8>, decimal: Text) -> Result<(), AllocError>
    ensures { OnOk result (out.new.items ≡ out.old.items ++ (codes " " ++ text_of decimal)) }
{
    out.extend_from_slice(b" ")?;
    out.extend_from_slice(decimal.as_slice())?;
    Ok(())
}

impl Printed for Char {
    ghost use Rattle.ncc_lines.specs.Words.{char_text};

    ghost text = { λ _. char_text };

    fn print(self, _style: FloatStyle, out: &mut Vec<u8>) -> Result<(), AllocError> {
        push_escaped(out, self.0)
    }

    fn print_all(values: &[Char], _style: FloatStyle, out: &mut Vec<u8>) -> Result<(), AllocError> {
        let mut room = [0; PIECE];
        let bytes = &mut room[..values.len()];
        copy_chars(values, bytes);
        push_name(out, bytes)
    }
}

impl Printed for F32Bits {
    ghost use Rattle.ncc_lines.specs.Words.{float_word};

    ghost text = { float_word };

    fn print(self, style: FloatStyle, out: &mut Vec<u8>) -> Result<(), AllocError> {
        match style {
            FloatStyle::Bits => push_bits_word(out, &self.0.to_be_bytes()),
            FloatStyle::Decimal => push_decimal_word(out, text32(self.0)),
        }
    }
}

impl Printed for F64Bits {
    ghost use Rattle.ncc_lines.specs.Words.{double_word};

    ghost text = { double_word };

    fn print(self, style: FloatStyle, out: &mut Vec<u8>) -> Result<(), AllocError> {
        match style {
            FloatStyle::Bits => push_bits_word(out, &self.0.to_be_bytes()),
            FloatStyle::Decimal => push_decimal_word(out, text64(self.0)),
        }
    }
}

impl Printed for i8 {
    ghost use Rattle.ncc_lines.specs.Words.{signed_word};

    ghost text = { λ _. signed_word };

    fn print(self, _style: FloatStyle, out: &mut Vec<u8>) -> Result<(), AllocError> {
        push_integers(out, &[self])
    }

    fn print_all(values: &[i8], _style: FloatStyle, out: &mut Vec<u8>) -> Result<(), AllocError> {
        push_integers(out, values)
    }
}

impl Printed for i16 {
    ghost use Rattle.ncc_lines.specs.Words.{signed_word};

    ghost text = { λ _. signed_word };

    fn print(self, _style: FloatStyle, out: &mut Vec<u8>) -> Result<(), AllocError> {
        push_integers(out, &[self])
    }

    fn print_all(values: &[i16], _style: FloatStyle, out: &mut Vec<u8>) -> Result<(), AllocError> {
        push_integers(out, values)
    }
}

impl Printed for i32 {
    ghost use Rattle.ncc_lines.specs.Words.{signed_word};

    ghost text = { λ _. signed_word };

    fn print(self, _style: FloatStyle, out: &mut Vec<u8>) -> Result<(), AllocError> {
        push_integers(out, &[self])
    }

    fn print_all(values: &[i32], _style: FloatStyle, out: &mut Vec<u8>) -> Result<(), AllocError> {
        push_integers(out, values)
    }
}

impl Printed for i64 {
    ghost use Rattle.ncc_lines.specs.Words.{signed_word};

    ghost text = { λ _. signed_word };

    fn print(self, _style: FloatStyle, out: &mut Vec<u8>) -> Result<(), AllocError> {
        push_integers(out, &[self])
    }

    fn print_all(values: &[i64], _style: FloatStyle, out: &mut Vec<u8>) -> Result<(), AllocError> {
        push_integers(out, values)
    }
}

impl Printed for u8 {
    ghost use Rattle.ncc_lines.specs.Words.{unsigned_word};

    ghost text = { λ _. unsigned_word };

    fn print(self, _style: FloatStyle, out: &mut Vec<u8>) -> Result<(), AllocError> {
        push_integers(out, &[self])
    }

    fn print_all(values: &[u8], _style: FloatStyle, out: &mut Vec<u8>) -> Result<(), AllocError> {
        push_integers(out, values)
    }
}

impl Printed for u16 {
    ghost use Rattle.ncc_lines.specs.Words.{unsigned_word};

    ghost text = { λ _. unsigned_word };

    fn print(self, _style: FloatStyle, out: &mut Vec<u8>) -> Result<(), AllocError> {
        push_integers(out, &[self])
    }

    fn print_all(values: &[u16], _style: FloatStyle, out: &mut Vec<u8>) -> Result<(), AllocError> {
        push_integers(out, values)
    }
}

impl Printed for u32 {
    ghost use Rattle.ncc_lines.specs.Words.{unsigned_word};

    ghost text = { λ _. unsigned_word };

    fn print(self, _style: FloatStyle, out: &mut Vec<u8>) -> Result<(), AllocError> {
        push_integers(out, &[self])
    }

    fn print_all(values: &[u32], _style: FloatStyle, out: &mut Vec<u8>) -> Result<(), AllocError> {
        push_integers(out, values)
    }
}

impl Printed for u64 {
    ghost use Rattle.ncc_lines.specs.Words.{unsigned_word};

    ghost text = { λ _. unsigned_word };

    fn print(self, _style: FloatStyle, out: &mut Vec<u8>) -> Result<(), AllocError> {
        push_integers(out, &[self])
    }

    fn print_all(values: &[u64], _style: FloatStyle, out: &mut Vec<u8>) -> Result<(), AllocError> {
        push_integers(out, values)
    }
}
