//! The unsigned elements: ubyte, ushort, uint and uint64.

ghost use Rattle.std.specs.Prelude.{pos, refl, unsigned_abs};
ghost use Rattle.std.proofs.Common.{ap};
ghost use Rattle.ncc_values.specs.ExternalLaws.{number_in-bytes_in, bytes_in-number_in};
ghost use Rattle.ncc_values.specs.declared.xtype.XType.TheVariants.{UByte, UShort, UInt, UInt64};

use crate::external::External;
use crate::xtype::XType;
use byteorder::{BigEndian, ByteOrder};

impl External for u8 {
    ghost TYPE = { UByte };

    ghost SIZE = { 1 };

    ghost number = { λ x. pos x };

    ghost element = { unsigned_abs };

    ghost has_size = { refl };

    ghost element_of_number = { λ x. refl };

    ghost get_of_put = { λ x h. ap unsigned_abs (number_in-bytes_in UByte (pos x) h) };

    ghost put_of_get = { λ bytes. bytes_in-number_in UByte bytes };

    const TYPE: XType = XType::UByte;

    const SIZE: usize = 1;

    fn get(bytes: &[u8]) -> u8 {
        bytes[0]
    }

    fn put(self, out: &mut [u8]) {
        out[0] = self;
    }
}

impl External for u16 {
    ghost TYPE = { UShort };

    ghost SIZE = { 2 };

    ghost number = { λ x. pos x };

    ghost element = { unsigned_abs };

    ghost has_size = { refl };

    ghost element_of_number = { λ x. refl };

    ghost get_of_put = { λ x h. ap unsigned_abs (number_in-bytes_in UShort (pos x) h) };

    ghost put_of_get = { λ bytes. bytes_in-number_in UShort bytes };

    const TYPE: XType = XType::UShort;

    const SIZE: usize = 2;

    fn get(bytes: &[u8]) -> u16 {
        BigEndian::read_u16(bytes)
    }

    fn put(self, out: &mut [u8]) {
        BigEndian::write_u16(out, self);
    }
}

impl External for u32 {
    ghost TYPE = { UInt };

    ghost SIZE = { 4 };

    ghost number = { λ x. pos x };

    ghost element = { unsigned_abs };

    ghost has_size = { refl };

    ghost element_of_number = { λ x. refl };

    ghost get_of_put = { λ x h. ap unsigned_abs (number_in-bytes_in UInt (pos x) h) };

    ghost put_of_get = { λ bytes. bytes_in-number_in UInt bytes };

    const TYPE: XType = XType::UInt;

    const SIZE: usize = 4;

    fn get(bytes: &[u8]) -> u32 {
        BigEndian::read_u32(bytes)
    }

    fn put(self, out: &mut [u8]) {
        BigEndian::write_u32(out, self);
    }
}

impl External for u64 {
    ghost TYPE = { UInt64 };

    ghost SIZE = { 8 };

    ghost number = { λ x. pos x };

    ghost element = { unsigned_abs };

    ghost has_size = { refl };

    ghost element_of_number = { λ x. refl };

    ghost get_of_put = { λ x h. ap unsigned_abs (number_in-bytes_in UInt64 (pos x) h) };

    ghost put_of_get = { λ bytes. bytes_in-number_in UInt64 bytes };

    const TYPE: XType = XType::UInt64;

    const SIZE: usize = 8;

    fn get(bytes: &[u8]) -> u64 {
        BigEndian::read_u64(bytes)
    }

    fn put(self, out: &mut [u8]) {
        BigEndian::write_u64(out, self);
    }
}
