//! The text of a header, in memory.

ghost use Rattle.std.specs.Prelude.{◌≡◌, IfOk};
ghost use Rattle.json.specs.Print.{print};
ghost use Rattle.ncc_listed.specs.Members.{list_members};

use crate::attributes::put_attrs;
use crate::objects::{put_dims, put_head, put_vars};
use json::Writer;
use ncc_header::Header;
use ncc_lines::FloatStyle;
use std::alloc::{AllocError, Global};

/// What a header says, as members of an object.
pub fn header_told(alloc: Global, header: &Header, style: FloatStyle) -> Result<Vec<u8>, AllocError>
    ensures { IfOk result (λ v. v.items ≡ print (list_members style header.now)) }
{
    let schema = &header.schema;
    let places = header.places.as_slice();
    let mut out = Writer::new(Vec::new(alloc));
    put_head(&mut out, header)?;
    put_dims(alloc, &mut out, schema.dims.as_slice())?;
    put_attrs(alloc, &mut out, schema.gatts.as_slice(), style)?;
    put_vars(alloc, &mut out, places, schema.vars.as_slice(), style)?;
    Ok(out.into_inner())
}
