//! The numbers of an attribute, as a list.

ghost use Rattle.std.specs.Prelude.{◌≡◌, ◌++◌, map, OnOk};
ghost use Rattle.ncc_listed.specs.Values.{numbers_member};

use crate::floats::{put_bits, put_double, put_float};
use json::Writer;
use ncc_json::put_list;
use ncc_lines::FloatStyle;
use ncc_values::{F32Bits, F64Bits};
use std::alloc::{AllocError, Global};

/// A number of an attribute.
pub trait Listed: Copy {
    ghost use Rattle.std.specs.Prelude.{◌≡◌, ◌++◌, ◌∷◌, [], OnOk};
    ghost use Rattle.json.specs.Token.{Token};
    ghost use Rattle.ncc_lines.specs.declared.style.FloatStyle.{FloatStyle};

    /// What it adds to a list.
    ghost token: { FloatStyle → Self → Token };

    /// Adds it.
    fn put(self, alloc: Global, style: FloatStyle, out: &mut Writer) -> Result<(), AllocError>
        ensures tokens { OnOk result (out.new.tokens ≡ out.old.tokens ++ token style self ∷ []) }
        ensures before { out.new.before ≡ out.old.before };
}

/// Adds numbers, one after the other.
fn put_all<T: Listed>(
    alloc: Global,
    out: &mut Writer,
    numbers: &[T],
    style: FloatStyle,
) -> Result<(), AllocError>
    ensures tokens { OnOk result (out.new.tokens ≡ out.old.tokens ++ map (T.token style) numbers.now) }
    ensures before { out.new.before ≡ out.old.before }
{
    for number in numbers {
        number.put(alloc, style, out)?;
    }
    Ok(())
}

/// Adds the values of an attribute, which are numbers.
#[tactic(auto, unfolding(crate::specs::Values::numbers_member))]
pub fn put_numbers<T: Listed>(
    alloc: Global,
    out: &mut Writer,
    numbers: &[T],
    style: FloatStyle,
) -> Result<(), AllocError>
    ensures tokens { OnOk result (out.new.tokens ≡ out.old.tokens ++ numbers_member (map (T.token style) numbers.now)) }
    ensures before { out.new.before ≡ out.old.before }
{
    put_list(out, "values")?;
    put_all(alloc, out, numbers, style)?;
    out.end_array()?;
    Ok(())
}

impl Listed for F32Bits {
    ghost use Rattle.ncc_listed.specs.Values.{float_token};

    ghost token = { float_token };

    fn put(self, alloc: Global, style: FloatStyle, out: &mut Writer) -> Result<(), AllocError> {
        match style {
            FloatStyle::Bits => put_bits(alloc, out, &self.0.to_be_bytes()),
            FloatStyle::Decimal => put_float(out, self.0),
        }
    }
}

impl Listed for F64Bits {
    ghost use Rattle.ncc_listed.specs.Values.{double_token};

    ghost token = { double_token };

    fn put(self, alloc: Global, style: FloatStyle, out: &mut Writer) -> Result<(), AllocError> {
        match style {
            FloatStyle::Bits => put_bits(alloc, out, &self.0.to_be_bytes()),
            FloatStyle::Decimal => put_double(out, self.0),
        }
    }
}

impl Listed for i8 {
    ghost use Rattle.ncc_listed.specs.Values.{signed_token};

    ghost token = { λ _. signed_token };

    fn put(self, _alloc: Global, _style: FloatStyle, out: &mut Writer) -> Result<(), AllocError> {
        out.i64(self as i64)
    }
}

impl Listed for i16 {
    ghost use Rattle.ncc_listed.specs.Values.{signed_token};

    ghost token = { λ _. signed_token };

    fn put(self, _alloc: Global, _style: FloatStyle, out: &mut Writer) -> Result<(), AllocError> {
        out.i64(self as i64)
    }
}

impl Listed for i32 {
    ghost use Rattle.ncc_listed.specs.Values.{signed_token};

    ghost token = { λ _. signed_token };

    fn put(self, _alloc: Global, _style: FloatStyle, out: &mut Writer) -> Result<(), AllocError> {
        out.i64(self as i64)
    }
}

impl Listed for i64 {
    ghost use Rattle.ncc_listed.specs.Values.{signed_token};

    ghost token = { λ _. signed_token };

    fn put(self, _alloc: Global, _style: FloatStyle, out: &mut Writer) -> Result<(), AllocError> {
        out.i64(self)
    }
}

impl Listed for u8 {
    ghost use Rattle.ncc_listed.specs.Values.{unsigned_token};

    ghost token = { λ _. unsigned_token };

    fn put(self, _alloc: Global, _style: FloatStyle, out: &mut Writer) -> Result<(), AllocError> {
        out.u64(self as u64)
    }
}

impl Listed for u16 {
    ghost use Rattle.ncc_listed.specs.Values.{unsigned_token};

    ghost token = { λ _. unsigned_token };

    fn put(self, _alloc: Global, _style: FloatStyle, out: &mut Writer) -> Result<(), AllocError> {
        out.u64(self as u64)
    }
}

impl Listed for u32 {
    ghost use Rattle.ncc_listed.specs.Values.{unsigned_token};

    ghost token = { λ _. unsigned_token };

    fn put(self, _alloc: Global, _style: FloatStyle, out: &mut Writer) -> Result<(), AllocError> {
        out.u64(self as u64)
    }
}

impl Listed for u64 {
    ghost use Rattle.ncc_listed.specs.Values.{unsigned_token};

    ghost token = { λ _. unsigned_token };

    fn put(self, _alloc: Global, _style: FloatStyle, out: &mut Writer) -> Result<(), AllocError> {
        out.u64(self)
    }
}
