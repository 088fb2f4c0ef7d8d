//! Elements kept as they stand in the file: characters, and floats by their bits.

use crate::external::External;
use crate::xtype::XType;
use byteorder::{BigEndian, ByteOrder};

/// A character of a text of the file, as its byte.
#[derive(Clone, Copy, Debug, Default, PartialEq, Eq)]
pub struct Char(pub u8);

/// The bits of a float, kept whole also where it is no number.
#[derive(Clone, Copy, Debug, Default, PartialEq, Eq)]
pub struct F32Bits(pub u32);

/// The bits of a double, kept whole also where it is no number.
#[derive(Clone, Copy, Debug, Default, PartialEq, Eq)]
pub struct F64Bits(pub u64);

impl External for Char {
    ghost use Rattle.std.specs.Prelude.{pos, refl};
    ghost use Rattle.std.proofs.Common.{ap};
    ghost use Rattle.ncc_values.specs.ExternalLaws.{number_in-bytes_in, bytes_in-number_in};
    ghost use Rattle.ncc_values.specs.Raw.{char_of};
    ghost use Rattle.ncc_values.specs.declared.xtype.XType.TheVariants.{Char};

    ghost TYPE = { Char };

    ghost SIZE = { 1 };

    ghost number = { λ x. pos x.0 };

    ghost element = { char_of };

    ghost has_size = { refl };

    ghost element_of_number = { λ x. refl };

    ghost get_of_put = { λ x h. ap char_of (number_in-bytes_in Char (pos x.0) h) };

    ghost put_of_get = { λ bytes. bytes_in-number_in Char bytes };

    const TYPE: XType = XType::Char;

    const SIZE: usize = 1;

    fn get(bytes: &[u8]) -> Char {
        Char(bytes[0])
    }

    fn put(self, out: &mut [u8]) {
        out[0] = self.0;
    }
}

impl External for F32Bits {
    ghost use Rattle.std.specs.Prelude.{pos, refl};
    ghost use Rattle.std.proofs.Common.{ap};
    ghost use Rattle.ncc_values.specs.ExternalLaws.{number_in-bytes_in, bytes_in-number_in};
    ghost use Rattle.ncc_values.specs.Raw.{float_of};
    ghost use Rattle.ncc_values.specs.declared.xtype.XType.TheVariants.{Float};

    ghost TYPE = { Float };

    ghost SIZE = { 4 };

    ghost number = { λ x. pos x.0 };

    ghost element = { float_of };

    ghost has_size = { refl };

    ghost element_of_number = { λ x. refl };

    ghost get_of_put = { λ x h. ap float_of (number_in-bytes_in Float (pos x.0) h) };

    ghost put_of_get = { λ bytes. bytes_in-number_in Float bytes };

    const TYPE: XType = XType::Float;

    const SIZE: usize = 4;

    fn get(bytes: &[u8]) -> F32Bits {
        F32Bits(BigEndian::read_u32(bytes))
    }

    fn put(self, out: &mut [u8]) {
        BigEndian::write_u32(out, self.0);
    }
}

impl External for F64Bits {
    ghost use Rattle.std.specs.Prelude.{pos, refl};
    ghost use Rattle.std.proofs.Common.{ap};
    ghost use Rattle.ncc_values.specs.ExternalLaws.{number_in-bytes_in, bytes_in-number_in};
    ghost use Rattle.ncc_values.specs.Raw.{double_of};
    ghost use Rattle.ncc_values.specs.declared.xtype.XType.TheVariants.{Double};

    ghost TYPE = { Double };

    ghost SIZE = { 8 };

    ghost number = { λ x. pos x.0 };

    ghost element = { double_of };

    ghost has_size = { refl };

    ghost element_of_number = { λ x. refl };

    ghost get_of_put = { λ x h. ap double_of (number_in-bytes_in Double (pos x.0) h) };

    ghost put_of_get = { λ bytes. bytes_in-number_in Double bytes };

    const TYPE: XType = XType::Double;

    const SIZE: usize = 8;

    fn get(bytes: &[u8]) -> F64Bits {
        F64Bits(BigEndian::read_u64(bytes))
    }

    fn put(self, out: &mut [u8]) {
        BigEndian::write_u64(out, self.0);
    }
}
