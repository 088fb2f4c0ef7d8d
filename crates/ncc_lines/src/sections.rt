//! Sending the lines of a header, section by section.

ghost use Rattle.std.specs.Prelude.{◌++◌, None};
ghost use Rattle.std.specs.List.{flat_map};
ghost use Rattle.ncc_lines.specs.Texts.{head_lines, dim_line, dim_lines, dim_end, attr_type, attr_head, attr_line, attr_lines, dim_word, var_type, var_head, var_line, var_text, var_texts, schema_lines, list_text};
ghost use Rattle.ncc_lines.specs.Sends.{Sends, Blames};

use crate::heads::{
    dim_name, offset_of, push_attr_start, push_attr_type, push_var_start, push_var_type,
};
use crate::page::{send, send_name, turn_page};
use crate::send_error::SendError;
use crate::style::FloatStyle;
use crate::texts::{push_dim_end, push_dim_start, push_head};
use crate::values::sending::send_values;
use ncc_header::{Attr, Dim, Header, Schema, Sink, Var, VarPlace};

/// Sends the line of a dimension.
fn send_dim<W: Sink>(
    number: usize,
    dim: &Dim,
    page: &mut Vec<u8>,
    sink: &mut W,
) -> Result<(), SendError>
    ensures sent { Sends (W.put sink.old) (W.put sink.new)
        (page.old.items ++ dim_line number dim.now) page.new.items result }
    ensures count { Blames (W.failures sink.old) (W.failures sink.new) result }
{
    push_dim_start(page, number)?;
    send_name(dim.name.as_slice(), page, sink)?;
    push_dim_end(page, dim.length)?;
    turn_page(page, sink)
}

/// Sends a line for each dimension.
fn send_dims<W: Sink>(dims: &[Dim], page: &mut Vec<u8>, sink: &mut W) -> Result<(), SendError>
    ensures sent { Sends (W.put sink.old) (W.put sink.new)
        (page.old.items ++ dim_lines 0 dims.now) page.new.items result }
    ensures count { Blames (W.failures sink.old) (W.failures sink.new) result }
{
    for (number, dim) in dims.iter().enumerate() {
        send_dim(number, dim, page, sink)?;
    }
    Ok(())
}

/// Sends the line of an attribute up to its values.
fn send_attr_head<W: Sink>(
    owner: Option<usize>,
    attr: &Attr,
    page: &mut Vec<u8>,
    sink: &mut W,
) -> Result<(), SendError>
    ensures sent { Sends (W.put sink.old) (W.put sink.new)
        (page.old.items ++ attr_head owner attr.now) page.new.items result }
    ensures count { Blames (W.failures sink.old) (W.failures sink.new) result }
{
    push_attr_start(page, owner)?;
    send_name(attr.name.as_slice(), page, sink)?;
    push_attr_type(page, &attr.values)?;
    turn_page(page, sink)
}

/// Sends the line of an attribute.
fn send_attr<W: Sink>(
    owner: Option<usize>,
    attr: &Attr,
    style: FloatStyle,
    page: &mut Vec<u8>,
    sink: &mut W,
) -> Result<(), SendError>
    ensures sent { Sends (W.put sink.old) (W.put sink.new)
        (page.old.items ++ attr_line style owner attr.now) page.new.items result }
    ensures count { Blames (W.failures sink.old) (W.failures sink.new) result }
{
    send_attr_head(owner, attr, page, sink)?;
    send_values(&attr.values, style, page, sink)?;
    send(b"\n", page, sink)
}

/// Sends a line for each attribute.
fn send_attrs<W: Sink>(
    owner: Option<usize>,
    attrs: &[Attr],
    style: FloatStyle,
    page: &mut Vec<u8>,
    sink: &mut W,
) -> Result<(), SendError>
    ensures sent { Sends (W.put sink.old) (W.put sink.new)
        (page.old.items ++ attr_lines style owner attrs.now) page.new.items result }
    ensures count { Blames (W.failures sink.old) (W.failures sink.new) result }
{
    for attr in attrs {
        send_attr(owner, attr, style, page, sink)?;
    }
    Ok(())
}

/// Sends the name of a dimension after a space.
fn send_dim_word<W: Sink>(
    dims: &[Dim],
    number: usize,
    page: &mut Vec<u8>,
    sink: &mut W,
) -> Result<(), SendError>
    ensures sent { Sends (W.put sink.old) (W.put sink.new)
        (page.old.items ++ dim_word dims.now number) page.new.items result }
    ensures count { Blames (W.failures sink.old) (W.failures sink.new) result }
{
    send(b" ", page, sink)?;
    send_name(dim_name(dims, number), page, sink)
}

/// Sends the names of these dimensions.
fn send_dim_words<W: Sink>(
    dims: &[Dim],
    numbers: &[usize],
    page: &mut Vec<u8>,
    sink: &mut W,
) -> Result<(), SendError>
    ensures sent { Sends (W.put sink.old) (W.put sink.new)
        (page.old.items ++ flat_map (dim_word dims.now) numbers.now) page.new.items result }
    ensures count { Blames (W.failures sink.old) (W.failures sink.new) result }
{
    for number in numbers {
        send_dim_word(dims, *number, page, sink)?;
    }
    Ok(())
}

/// Sends the line of a variable up to the names of its dimensions.
fn send_var_head<W: Sink>(
    dims: &[Dim],
    number: usize,
    begin: u64,
    var: &Var,
    page: &mut Vec<u8>,
    sink: &mut W,
) -> Result<(), SendError>
    ensures sent { Sends (W.put sink.old) (W.put sink.new)
        (page.old.items ++ var_head dims.now number begin var.now) page.new.items result }
    ensures count { Blames (W.failures sink.old) (W.failures sink.new) result }
{
    push_var_start(page, number)?;
    send_name(var.name.as_slice(), page, sink)?;
    push_var_type(page, dims, begin, var)?;
    turn_page(page, sink)
}

/// Sends the line of a variable.
fn send_var_line<W: Sink>(
    dims: &[Dim],
    number: usize,
    begin: u64,
    var: &Var,
    page: &mut Vec<u8>,
    sink: &mut W,
) -> Result<(), SendError>
    ensures sent { Sends (W.put sink.old) (W.put sink.new)
        (page.old.items ++ var_line dims.now number begin var.now) page.new.items result }
    ensures count { Blames (W.failures sink.old) (W.failures sink.new) result }
{
    send_var_head(dims, number, begin, var, page, sink)?;
    send_dim_words(dims, var.dims.as_slice(), page, sink)?;
    send(b"\n", page, sink)
}

/// Sends the line of a variable and those of its attributes.
fn send_var<W: Sink>(
    dims: &[Dim],
    number: usize,
    begin: u64,
    var: &Var,
    style: FloatStyle,
    page: &mut Vec<u8>,
    sink: &mut W,
) -> Result<(), SendError>
    ensures sent { Sends (W.put sink.old) (W.put sink.new)
        (page.old.items ++ var_text style dims.now number begin var.now) page.new.items result }
    ensures count { Blames (W.failures sink.old) (W.failures sink.new) result }
{
    send_var_line(dims, number, begin, var, page, sink)?;
    send_attrs(Some(number), var.attrs.as_slice(), style, page, sink)
}

/// Sends the lines of each variable.
fn send_vars<W: Sink>(
    dims: &[Dim],
    places: &[VarPlace],
    vars: &[Var],
    style: FloatStyle,
    page: &mut Vec<u8>,
    sink: &mut W,
) -> Result<(), SendError>
    ensures sent { Sends (W.put sink.old) (W.put sink.new)
        (page.old.items ++ var_texts style dims.now places.now 0 vars.now) page.new.items result }
    ensures count { Blames (W.failures sink.old) (W.failures sink.new) result }
{
    for (number, var) in vars.iter().enumerate() {
        send_var(
            dims,
            number,
            offset_of(places, number),
            var,
            style,
            page,
            sink,
        )?;
    }
    Ok(())
}

/// Sends the lines above those of variables.
fn send_schema<W: Sink>(
    schema: &Schema,
    style: FloatStyle,
    page: &mut Vec<u8>,
    sink: &mut W,
) -> Result<(), SendError>
    ensures sent { Sends (W.put sink.old) (W.put sink.new)
        (page.old.items ++ schema_lines style schema.now) page.new.items result }
    ensures count { Blames (W.failures sink.old) (W.failures sink.new) result }
{
    push_head(page, schema)?;
    send_dims(schema.dims.as_slice(), page, sink)?;
    send_attrs(None, schema.gatts.as_slice(), style, page, sink)
}

/// Sends all lines of a header; the last of them are left on the page.
pub fn send_list<W: Sink>(
    header: &Header,
    style: FloatStyle,
    page: &mut Vec<u8>,
    sink: &mut W,
) -> Result<(), SendError>
    ensures sent { Sends (W.put sink.old) (W.put sink.new)
        (page.old.items ++ list_text style header.now) page.new.items result }
    ensures count { Blames (W.failures sink.old) (W.failures sink.new) result }
{
    let dims = header.schema.dims.as_slice();
    let vars = header.schema.vars.as_slice();
    send_schema(&header.schema, style, page, sink)?;
    send_vars(dims, header.places.as_slice(), vars, style, page, sink)
}
