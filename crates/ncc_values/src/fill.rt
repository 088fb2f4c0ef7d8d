//! Default fill values.

ghost use Rattle.std.specs.Prelude.{◌≡◌};
ghost use Rattle.ncc_values.specs.Fill.{fill_of};

use crate::xtype::XType;

/// The bytes of the type's default fill value, which stands where nothing was written.
pub fn fill_default(xtype: XType) -> &'static [u8]
    ensures { result.now ≡ fill_of xtype }
{
    match xtype {
        XType::Byte => &[0x81],
        XType::Char => &[0x00],
        XType::Short => &[0x80, 0x01],
        XType::Int => &[0x80, 0x00, 0x00, 0x01],
        XType::Float => &[0x7c, 0xf0, 0x00, 0x00],
        XType::Double => &[0x47, 0x9e, 0x00, 0x00, 0x00, 0x00, 0x00, 0x00],
        XType::UByte => &[0xff],
        XType::UShort => &[0xff, 0xff],
        XType::UInt => &[0xff, 0xff, 0xff, 0xff],
        XType::Int64 => &[0x80, 0x00, 0x00, 0x00, 0x00, 0x00, 0x00, 0x02],
        XType::UInt64 => &[0xff, 0xff, 0xff, 0xff, 0xff, 0xff, 0xff, 0xfe],
    }
}
