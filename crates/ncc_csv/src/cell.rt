//! Values as a row shows them.

ghost use Rattle.std.specs.Prelude.{◌≡◌, pos};
ghost use Rattle.ncc_values.specs.External.{bytes_in};
ghost use Rattle.ncc_values.specs.declared.xtype.XType.TheVariants.{Float, Double};
ghost use Rattle.ncc_csv.specs.Values.{bits_text};

use crate::written::{double_digits, float_digits, write_signed, write_text, write_unsigned};
use ncc_decimal::{write32, write64};
use ncc_lines::FloatStyle;
use ncc_values::{Char, External, F32Bits, F64Bits};

/// The bits of a float, in hexadecimal.
fn bits_of_float(x: F32Bits) -> [u8; 10]
    ensures { result ≡ bits_text (bytes_in Float (pos x.0)) }
{
    let mut bits = [0; 4];
    x.put(&mut bits);
    float_digits(bits)
}

/// The bits of a double, in hexadecimal.
fn bits_of_double(x: F64Bits) -> [u8; 18]
    ensures { result ≡ bits_text (bytes_in Double (pos x.0)) }
{
    let mut bits = [0; 8];
    x.put(&mut bits);
    double_digits(bits)
}

/// A value of a variable.
pub trait Cell: Copy {
    ghost use Rattle.std.specs.Prelude.{ℕ, ◌+◌, ◌≤◌, List, ◌++◌, length, drop};
    ghost use Rattle.ncc_lines.specs.declared.style.FloatStyle.{FloatStyle};
    ghost use Rattle.ncc_csv.specs.Plain.{IsPlain};

    /// The fewest rows of a run that are laid out together: with fewer, setting the room up takes longer than it saves.
    const FEWEST: usize = 3;

    /// What a row shows of it.
    ghost text: { FloatStyle → Self → List ℕ };

    /// Writes that so that it ends at `end`, and answers where it starts.
    fn write(self, style: FloatStyle, room: &mut [u8], end: usize) -> usize
        requires { (24 ≤ end) × (end ≤ length room.old) }
        ensures start { result + length (text style self) ≡ end }
        ensures written { drop result room.new ≡ text style self ++ drop end room.old }
        ensures short { length (text style self) ≤ 24 }
        ensures plain { IsPlain (text style self) };
}

impl Cell for i8 {
    ghost use Rattle.std.specs.Fmt.{signed_decimal};

    ghost text = { λ _. signed_decimal };

    fn write(self, _style: FloatStyle, room: &mut [u8], end: usize) -> usize {
        write_signed(self as i64, room, end)
    }
}

impl Cell for Char {
    ghost use Rattle.ncc_csv.specs.Values.{char_text};

    ghost text = { λ _. char_text };

    fn write(self, _style: FloatStyle, room: &mut [u8], end: usize) -> usize {
        write_unsigned(self.0 as u64, room, end)
    }
}

impl Cell for i16 {
    ghost use Rattle.std.specs.Fmt.{signed_decimal};

    ghost text = { λ _. signed_decimal };

    fn write(self, _style: FloatStyle, room: &mut [u8], end: usize) -> usize {
        write_signed(self as i64, room, end)
    }
}

impl Cell for i32 {
    ghost use Rattle.std.specs.Fmt.{signed_decimal};

    ghost text = { λ _. signed_decimal };

    fn write(self, _style: FloatStyle, room: &mut [u8], end: usize) -> usize {
        write_signed(self as i64, room, end)
    }
}

impl Cell for F32Bits {
    ghost use Rattle.ncc_csv.specs.Values.{float_text};

    ghost text = { float_text };

    fn write(self, style: FloatStyle, room: &mut [u8], end: usize) -> usize {
        match style {
            FloatStyle::Bits => write_text(&bits_of_float(self), room, end),
            FloatStyle::Decimal => write32(self.0, room, end),
        }
    }
}

impl Cell for F64Bits {
    ghost use Rattle.ncc_csv.specs.Values.{double_text};

    ghost text = { double_text };

    fn write(self, style: FloatStyle, room: &mut [u8], end: usize) -> usize {
        match style {
            FloatStyle::Bits => write_text(&bits_of_double(self), room, end),
            FloatStyle::Decimal => write64(self.0, room, end),
        }
    }
}

impl Cell for u8 {
    ghost use Rattle.std.specs.Fmt.{decimal};

    ghost text = { λ _. decimal };

    fn write(self, _style: FloatStyle, room: &mut [u8], end: usize) -> usize {
        write_unsigned(self as u64, room, end)
    }
}

impl Cell for u16 {
    ghost use Rattle.std.specs.Fmt.{decimal};

    ghost text = { λ _. decimal };

    fn write(self, _style: FloatStyle, room: &mut [u8], end: usize) -> usize {
        write_unsigned(self as u64, room, end)
    }
}

impl Cell for u32 {
    ghost use Rattle.std.specs.Fmt.{decimal};

    ghost text = { λ _. decimal };

    fn write(self, _style: FloatStyle, room: &mut [u8], end: usize) -> usize {
        write_unsigned(self as u64, room, end)
    }
}

impl Cell for i64 {
    ghost use Rattle.std.specs.Fmt.{signed_decimal};

    /// Of these, 3 to 6 rows together took longer than one by one at the start.
    const FEWEST: usize = 7;

    ghost text = { λ _. signed_decimal };

    fn write(self, _style: FloatStyle, room: &mut [u8], end: usize) -> usize {
        write_signed(self, room, end)
    }
}

impl Cell for u64 {
    ghost use Rattle.std.specs.Fmt.{decimal};

    ghost text = { λ _. decimal };

    fn write(self, _style: FloatStyle, room: &mut [u8], end: usize) -> usize {
        write_unsigned(self, room, end)
    }
}
