//! The parts of a header and where each ends.

ghost use Rattle.std.specs.Prelude.{◌≡◌, ◌+◌, ◌<◌, ◌^◌, ◌++◌, length, IfOk, OnOk, ◌∷◌, []};
ghost use Rattle.std.specs.List.{flat_map};
ghost use Rattle.ncc_schema.specs.Header.{canon_attr, canon_dim};
ghost use Rattle.ncc_schema.specs.Names.{canon_unplaced, no_place};
ghost use Rattle.ncc_schema.specs.Schema.{places_of};
ghost use Rattle.ncc_check.specs.FromStore.{IsBegun};
ghost use Rattle.ncc_parts.specs.Parts.{attrs_from, dims_from, ends_from, globals_from, parts_of, var_parts, vars_from};

use crate::part::Piece;
use ncc_header::laws::length_is_canonical;
use ncc_header::{Attr, Dim, Header, Part, Var, Version};
use ncc_schema::{attr_size, attrs_in, dim_size, list_size, var_size};
use std::alloc::{AllocError, Global};

/// Adds the dimensions, of which the first begins at `start`.
fn push_dims(
    version: Version,
    start: u64,
    dims: &[Dim],
    pieces: &mut Vec<Piece>,
) -> Result<u64, AllocError>
    requires { start + length (flat_map (canon_dim version) dims.now) < 2 ^ 64 }
    ensures pieces { OnOk result
        (pieces.new.items ≡ pieces.old.items ++ ends_from start (dims_from version 0 dims.now)) }
    ensures end { IfOk result (λ end. end ≡ start + length (flat_map (canon_dim version) dims.now)) }
{
    let mut at = start;
    for k in 0..dims.len() {
        at += dim_size(version, &dims[k]);
        pieces.push(Piece {
            part: Part::Dim(k),
            end: at,
        })?;
    }
    Ok(at)
}

/// Adds the global attributes, of which the first begins at `start`.
fn push_globals(
    version: Version,
    start: u64,
    attrs: &[Attr],
    pieces: &mut Vec<Piece>,
) -> Result<u64, AllocError>
    requires { start + length (flat_map (canon_attr version) attrs.now) < 2 ^ 64 }
    ensures pieces { OnOk result
        (pieces.new.items ≡ pieces.old.items ++ ends_from start (globals_from version 0 attrs.now)) }
    ensures end { IfOk result (λ end. end ≡ start + length (flat_map (canon_attr version) attrs.now)) }
{
    let mut at = start;
    for k in 0..attrs.len() {
        at += attr_size(version, &attrs[k]);
        pieces.push(Piece {
            part: Part::Global(k),
            end: at,
        })?;
    }
    Ok(at)
}

/// Adds the attributes of a variable, of which the first begins at `start`.
fn push_attrs(
    version: Version,
    start: u64,
    variable: usize,
    attrs: &[Attr],
    pieces: &mut Vec<Piece>,
) -> Result<u64, AllocError>
    requires { start + length (flat_map (canon_attr version) attrs.now) < 2 ^ 64 }
    ensures pieces { OnOk result
        (pieces.new.items ≡ pieces.old.items ++ ends_from start (attrs_from version variable 0 attrs.now)) }
    ensures end { IfOk result (λ end. end ≡ start + length (flat_map (canon_attr version) attrs.now)) }
{
    let mut at = start;
    for k in 0..attrs.len() {
        at += attr_size(version, &attrs[k]);
        pieces.push(Piece {
            part: Part::Attr(variable, k),
            end: at,
        })?;
    }
    Ok(at)
}

/// Adds the parts of a variable that begins at `start`.
fn push_var(
    version: Version,
    start: u64,
    number: usize,
    var: &Var,
    pieces: &mut Vec<Piece>,
) -> Result<u64, AllocError>
    requires { start + length (canon_unplaced version var.now) < 2 ^ 64 }
    ensures pieces { OnOk result
        (pieces.new.items ≡ pieces.old.items ++ ends_from start (var_parts version number var.now no_place)) }
    ensures end { IfOk result (λ end. end ≡ start + length (canon_unplaced version var.now)) }
{
    let first = start + attrs_in(version, var);
    let end = start + var_size(version, var);
    pieces.push(Piece {
        part: Part::Var(number),
        end: first - list_size(version),
    })?;
    pieces.push(Piece {
        part: Part::AttrList(number),
        end: first,
    })?;
    push_attrs(version, first, number, var.attrs.as_slice(), pieces)?;
    pieces.push(Piece {
        part: Part::Place(number),
        end,
    })?;
    Ok(end)
}

/// Adds the parts of all variables, of which the first begins at `start`.
fn push_vars(
    version: Version,
    start: u64,
    vars: &[Var],
    pieces: &mut Vec<Piece>,
) -> Result<(), AllocError>
    requires { start + length (flat_map (canon_unplaced version) vars.now) < 2 ^ 64 }
    ensures { OnOk result (pieces.new.items ≡ pieces.old.items ++ ends_from start (vars_from version 0 vars.now)) }
{
    let mut at = start;
    for k in 0..vars.len() {
        at = push_var(version, at, k, &vars[k], pieces)?;
    }
    Ok(())
}

/// Adds a part that has so many bytes, and gives its end.
fn push_part(part: Part, start: u64, size: u64, pieces: &mut Vec<Piece>) -> Result<u64, AllocError>
    requires { start + size < 2 ^ 64 }
    ensures pieces { OnOk result
        (pieces.new.items ≡ pieces.old.items ++ record { part = part; end = start + size } ∷ []) }
    ensures end { IfOk result (λ end. end ≡ start + size) }
{
    let end = start + size;
    pieces.push(Piece { part, end })?;
    Ok(end)
}

/// The parts of a header, in their order, each with its end.
pub fn pieces_of(alloc: Global, header: &Header) -> Result<Vec<Piece>, AllocError>
    requires { IsBegun header.now }
    ensures { IfOk result (λ v. v.items ≡ ends_from 0 (parts_of header.now.schema)) }
{
    length_is_canonical();
    // A number of 64 bits, so that no end is cut.
    let _length = header.length;
    let schema = &header.schema;
    let version = schema.version;
    let list = list_size(version);
    let mut pieces = Vec::new(alloc);
    let magic = push_part(Part::Magic, 0, 4, &mut pieces)?;
    let count = push_part(
        Part::NumRecs,
        magic,
        version.count_width() as u64,
        &mut pieces,
    )?;
    let dims = push_part(Part::DimList, count, list, &mut pieces)?;
    let end = push_dims(version, dims, schema.dims.as_slice(), &mut pieces)?;
    let globals = push_part(Part::GlobalList, end, list, &mut pieces)?;
    let end = push_globals(version, globals, schema.gatts.as_slice(), &mut pieces)?;
    let vars = push_part(Part::VarList, end, list, &mut pieces)?;
    push_vars(version, vars, schema.vars.as_slice(), &mut pieces)?;
    Ok(pieces)
}
