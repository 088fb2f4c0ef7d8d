//! Writing the canonical header of a schema and a placement.

ghost use Rattle.std.specs.Prelude.{◌<◌};
ghost use Rattle.ncc_values.specs.Failures.{Counts};
ghost use Rattle.ncc_schema.specs.Device.{WritesAll};
ghost use Rattle.ncc_schema.specs.Schema.{places_of, Legal};
ghost use Rattle.ncc_schema.specs.Header.{canon};

use crate::rules::attr::put_attrs;
use crate::rules::dim::put_dims;
use crate::rules::numrecs::put_numrecs;
use crate::rules::var::put_vars;
use crate::schema::{Schema, VarPlace};
use crate::sink::{Sink, write_all};
use ncc_values::Device;

/// header = magic numrecs dim_list gatt_list var_list
///
/// Puts out the canonical header: zero bytes as padding, and a zero tag for each list without items.
pub fn encode<W: Sink>(schema: &Schema, places: &[VarPlace], sink: &mut W) -> Result<(), Device>
    requires { Legal schema.now (places_of places.now) }
    ensures bytes { WritesAll (W.put sink.old) (W.put sink.new) result (canon schema.now (places_of places.now)) }
    ensures count { Counts (W.failures sink.old) (W.failures sink.new) result }
{
    let version = schema.version;
    write_all(sink, &[b'C', b'D', b'F', version.byte()])?;
    put_numrecs(sink, version, schema.count)?;
    put_dims(sink, version, schema.dims.as_slice())?;
    put_attrs(sink, version, schema.gatts.as_slice())?;
    put_vars(sink, schema, places)
}
