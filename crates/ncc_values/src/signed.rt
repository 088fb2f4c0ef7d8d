//! The signed elements: byte, short, int and int64.

ghost use Rattle.std.specs.Prelude.{refl};
ghost use Rattle.ncc_values.specs.ExternalLaws.{number_in-bytes_in, bytes_in-number_in};
ghost use Rattle.ncc_values.specs.declared.xtype.XType.TheVariants.{Byte, Short, Int, Int64};

use crate::external::External;
use crate::xtype::XType;
use byteorder::{BigEndian, ByteOrder};

impl External for i8 {
    ghost TYPE = { Byte };

    ghost SIZE = { 1 };

    ghost number = { λ x. x };

    ghost element = { λ z. z };

    ghost has_size = { refl };

    ghost element_of_number = { λ x. refl };

    ghost get_of_put = { λ x. number_in-bytes_in Byte x };

    ghost put_of_get = { λ bytes. bytes_in-number_in Byte bytes };

    const TYPE: XType = XType::Byte;

    const SIZE: usize = 1;

    fn get(bytes: &[u8]) -> i8 {
        bytes[0].cast_signed()
    }

    fn put(self, out: &mut [u8]) {
        out[0] = self.cast_unsigned();
    }
}

impl External for i16 {
    ghost TYPE = { Short };

    ghost SIZE = { 2 };

    ghost number = { λ x. x };

    ghost element = { λ z. z };

    ghost has_size = { refl };

    ghost element_of_number = { λ x. refl };

    ghost get_of_put = { λ x. number_in-bytes_in Short x };

    ghost put_of_get = { λ bytes. bytes_in-number_in Short bytes };

    const TYPE: XType = XType::Short;

    const SIZE: usize = 2;

    fn get(bytes: &[u8]) -> i16 {
        BigEndian::read_i16(bytes)
    }

    fn put(self, out: &mut [u8]) {
        BigEndian::write_i16(out, self);
    }
}

impl External for i32 {
    ghost TYPE = { Int };

    ghost SIZE = { 4 };

    ghost number = { λ x. x };

    ghost element = { λ z. z };

    ghost has_size = { refl };

    ghost element_of_number = { λ x. refl };

    ghost get_of_put = { λ x. number_in-bytes_in Int x };

    ghost put_of_get = { λ bytes. bytes_in-number_in Int bytes };

    const TYPE: XType = XType::Int;

    const SIZE: usize = 4;

    fn get(bytes: &[u8]) -> i32 {
        BigEndian::read_i32(bytes)
    }

    fn put(self, out: &mut [u8]) {
        BigEndian::write_i32(out, self);
    }
}

impl External for i64 {
    ghost TYPE = { Int64 };

    ghost SIZE = { 8 };

    ghost number = { λ x. x };

    ghost element = { λ z. z };

    ghost has_size = { refl };

    ghost element_of_number = { λ x. refl };

    ghost get_of_put = { λ x. number_in-bytes_in Int64 x };

    ghost put_of_get = { λ bytes. bytes_in-number_in Int64 bytes };

    const TYPE: XType = XType::Int64;

    const SIZE: usize = 8;

    fn get(bytes: &[u8]) -> i64 {
        BigEndian::read_i64(bytes)
    }

    fn put(self, out: &mut [u8]) {
        BigEndian::write_i64(out, self);
    }
}
