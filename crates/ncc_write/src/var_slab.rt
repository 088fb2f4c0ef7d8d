//! What is put for the slabs of a variable.

ghost use Rattle.std.specs.Prelude.{◌≡◌, ◌<◌, length, get_or, option_map};
ghost use Rattle.ncc_values.specs.XType.{size_of};
ghost use Rattle.ncc_layout.specs.Sizes.{slab};
ghost use Rattle.ncc_build.specs.Fill.{fill_name, fill_by, named};
ghost use Rattle.ncc_build.specs.File.{is_lone};
ghost use Rattle.ncc_write.specs.VarSlabs.{no_var, var_slab_for};

use ncc_schema::{Attr, Schema};
use ncc_values::{XType, fill_default, pad};

/// What is put for a slab of a variable.
#[derive(Clone, Copy)]
pub(crate) struct VarSlab {
    /// The variable's number.
    pub(crate) var: usize,
    pub(crate) xtype: XType,
    pub(crate) elements: u64,
    /// How many fill values pad the slab.
    pub(crate) padding: u64,
    /// The bytes of a fill value stand first.
    fill: [u8; 8],
}

/// The first attribute `_FillValue`.
fn fill_attribute(attrs: &[Attr]) -> Option<&Attr>
    ensures { option_map (λ a. a.now) result ≡ named fill_name attrs.now }
{
    for attr in attrs {
        if attr.name.as_slice() == b"_FillValue".as_slice() {
            return Some(attr);
        }
    }
    None
}

/// Writes the fill value of the type that the attribute gives, if it gives one value of it, else the default one.
fn put_fill_by(xtype: XType, attribute: Option<&Attr>, out: &mut [u8])
    requires { length out.old ≡ size_of xtype }
    ensures { out.new ≡ fill_by xtype (option_map (λ a. a.now) attribute.entry) }
{
    if let Some(attr) = attribute {
        if attr.values.xtype() == xtype && attr.values.len() == 1 {
            attr.values.put_from(0, out);
            return;
        }
    }
    out.copy_from_slice(fill_default(xtype));
}

/// What is put for a slab of a variable with this number. The slab has so many bytes.
pub(crate) fn var_slab_of(schema: &Schema, number: usize, bytes: u64, lone: bool) -> VarSlab
    requires there { number < length schema.now.vars }
    requires bytes { bytes ≡ slab schema.now.dims (get_or schema.now.vars number no_var) }
    requires lone { lone ≡ is_lone schema.now (get_or schema.now.vars number no_var) }
    ensures { let var = get_or schema.now.vars number no_var in
        result ≡ var_slab_for schema.now (record { var = var; number = number; in_record = 0 }) }
{
    let var = &schema.vars.as_slice()[number];
    let size = var.xtype.size();
    let mut fill = [0; 8];
    put_fill_by(
        var.xtype,
        fill_attribute(var.attrs.as_slice()),
        &mut fill[..size],
    );
    let padding = if lone { 0 } else { pad(bytes) };
    VarSlab {
        var: number,
        xtype: var.xtype,
        elements: bytes / size as u64,
        padding: padding / size as u64,
        fill,
    }
}

impl VarSlab {
    ghost use Rattle.std.specs.Prelude.{◌≤◌};
    ghost use Rattle.ncc_write.specs.VarSlabs.{var_slab_fill};

    /// The bytes of a fill value.
    #[inline(always)]
    pub(crate) fn fill(&self) -> &[u8]
        ensures fill { result.now ≡ var_slab_fill self.now }
        ensures some { 0 < length result.now }
        ensures short { length result.now ≤ 8 }
        ensures long { length result.now ≡ size_of self.now.xtype }
    {
        &self.fill[..self.xtype.size()]
    }
}
