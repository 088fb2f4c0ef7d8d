//! The rules att_list = ABSENT | NC_ATTRIBUTE nelems [attr ...] and attr = name nc_type nelems [values ...] padding.

ghost use Rattle.std.specs.Prelude.{◌≡◌, ◌<◌, ◌*◌, length, ◌+◌};
ghost use Rattle.std.specs.List.{AllByRecursion, flat_map};
ghost use Rattle.ncc_values.specs.Padding.{padding_of};
ghost use Rattle.ncc_values.specs.Values.{type_of, count_of, bytes_of};
ghost use Rattle.ncc_values.specs.XType.{size_of};
ghost use Rattle.ncc_values.specs.Failures.{Counts};
ghost use Rattle.ncc_schema.specs.Device.{WritesAll};
ghost use Rattle.ncc_schema.specs.Schema.{count_limit, LegalAttr};
ghost use Rattle.ncc_schema.specs.Header.{nc_attribute, canon_list, canon_attr};
ghost use Rattle.ncc_schema.specs.Names.{capped};

use crate::numbers::{put_non_neg, put_word, put_zeros};
use crate::rules::list::put_head;
use crate::rules::name::{name_size, put_name};
use crate::schema::Attr;
use crate::sink::{Sink, write_all};
use crate::tags::NC_ATTRIBUTE;
use ncc_values::{Device, Values, Version, pad};

/// How many bytes are put out of values at once: a multiple of each type's size.
const PIECE: usize = 512;

/// [values ...]
fn put_values<W: Sink>(sink: &mut W, values: &Values) -> Result<(), Device>
    ensures bytes { WritesAll (W.put sink.old) (W.put sink.new) result (bytes_of values.now) }
    ensures count { Counts (W.failures sink.old) (W.failures sink.new) result }
{
    let size = values.xtype().size();
    let number = values.len();
    let mut bytes = [0; PIECE];
    let mut first = 0;
    while first < number {
        let some = (number - first).min(PIECE / size);
        let (piece, _unused) = bytes.split_at_mut(some * size);
        values.put_from(first, piece);
        write_all(sink, piece)?;
        first += some;
    }
    Ok(())
}

/// The padding after values. Only the remainder of their number by four matters.
fn padding_behind(values: &Values) -> u64
    ensures { result ≡ padding_of (count_of values.now * size_of (type_of values.now)) }
{
    pad(values.len() as u64 % 4 * values.xtype().size() as u64)
}

/// attr = name nc_type nelems [values ...] padding
fn put_attr<W: Sink>(sink: &mut W, version: Version, attr: &Attr) -> Result<(), Device>
    requires { LegalAttr version attr.now }
    ensures bytes { WritesAll (W.put sink.old) (W.put sink.new) result (canon_attr version attr.now) }
    ensures count { Counts (W.failures sink.old) (W.failures sink.new) result }
{
    put_name(sink, version, attr.name.as_slice())?;
    put_word(sink, attr.values.xtype().code())?;
    put_non_neg(sink, version, attr.values.len() as u64)?;
    put_values(sink, &attr.values)?;
    put_zeros(sink, padding_behind(&attr.values))
}

/// att_list = ABSENT | NC_ATTRIBUTE nelems [attr ...]
pub fn put_attrs<W: Sink>(sink: &mut W, version: Version, attrs: &[Attr]) -> Result<(), Device>
    requires number { length attrs.now < count_limit version }
    requires each { AllByRecursion (LegalAttr version) attrs.now }
    ensures bytes { WritesAll (W.put sink.old) (W.put sink.new) result
        (canon_list version nc_attribute (canon_attr version) attrs.now) }
    ensures count { Counts (W.failures sink.old) (W.failures sink.new) result }
{
    put_head(sink, version, NC_ATTRIBUTE, attrs.len())?;
    for attr in attrs {
        put_attr(sink, version, attr)?;
    }
    Ok(())
}

/// The bytes of an attribute.
pub fn attr_size(version: Version, attr: &Attr) -> u64
    ensures { result ≡ capped (length (canon_attr version attr.now)) }
{
    let number = attr.values.len() as u64;
    let values = number.saturating_mul(attr.values.xtype().size() as u64);
    let fixed = 4 + version.count_width() as u64;
    let name = name_size(version, attr.name.as_slice());
    name.saturating_add(values)
        .saturating_add(fixed + pad(values))
}

pub fn attrs_size(version: Version, attrs: &[Attr]) -> u64
    ensures { result ≡ capped (length (flat_map (canon_attr version) attrs.now)) }
{
    let mut size: u64 = 0;
    for attr in attrs {
        size = size.saturating_add(attr_size(version, attr));
    }
    size
}
