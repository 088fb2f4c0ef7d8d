//! Gathering the bytes of the next field where a piece ends inside of it.

ghost use Rattle.std.specs.Prelude.{◌≡◌, ◌+◌, ◌%◌, ◌≤◌, ◌<◌, [], ◌++◌, length, OnOk, OnErr};
ghost use Rattle.ncc_values.specs.Values.{type_of, bytes_of};
ghost use Rattle.ncc_values.specs.XType.{size_of as bytes_each};
ghost use Rattle.ncc_header.specs.Left.{left_of, front_of, part_of, first_at};
ghost use Rattle.ncc_header.specs.Steps.{next_size, held_length};

use crate::partial::{Body, Next, Partial};
use crate::rules::attr::add_values;
use arrayvec::ArrayVec;
use std::alloc::AllocError;

/// Adds bytes to those that are held.
fn hold_more(held: &mut ArrayVec<u8, 8>, bytes: &[u8])
    requires { length held.old.items + length bytes.now ≤ 8 }
    ensures { held.new.items ≡ held.old.items ++ bytes.now }
{
    held.try_extend_from_slice(bytes).unwrap();
}

/// Adds the values that the bytes spell, and holds the bytes after the last whole one.
fn add_whole(body: &mut Body, held: &mut ArrayVec<u8, 8>, bytes: &[u8]) -> Result<(), AllocError>
    requires { held.old.items ≡ [] }
    ensures xtype { OnOk result (type_of body.new.values ≡ type_of body.old.values) }
    ensures part { OnOk result (length held.new.items < bytes_each (type_of body.new.values)) }
    ensures bytes { OnOk result (bytes_of body.new.values ++ held.new.items ≡ bytes_of body.old.values ++ bytes.now) }
{
    let part = bytes.len() % body.values.xtype().size();
    let (whole, rest) = bytes.split_at(bytes.len() - part);
    add_values(body, whole)?;
    hold_more(held, rest);
    Ok(())
}

/// Adds bytes of values to those of a value whose first bytes are held.
fn gather_values(
    body: &mut Body,
    held: &mut ArrayVec<u8, 8>,
    front: &[u8],
) -> Result<(), AllocError>
    requires { length held.old.items < bytes_each (type_of body.old.values) }
    ensures xtype { OnOk result (type_of body.new.values ≡ type_of body.old.values) }
    ensures part { OnOk result (length held.new.items < bytes_each (type_of body.new.values)) }
    ensures bytes { OnOk result (bytes_of body.new.values ++ held.new.items
        ≡ (bytes_of body.old.values ++ held.old.items) ++ front.now) }
{
    if held.is_empty() {
        return add_whole(body, held, front);
    }
    let lacking = body.values.xtype().size() - held.len();
    if front.len() < lacking {
        hold_more(held, front);
        return Ok(());
    }
    let (first, rest) = front.split_at(lacking);
    hold_more(held, first);
    add_values(body, held.as_slice())?;
    held.clear();
    add_whole(body, held, rest)
}

/// Adds bytes to those of the next field that have come: those of a name and whole values where they
/// stay, and others to those that are held.
pub fn gather(
    next: Next,
    partial: &mut Partial,
    held: &mut ArrayVec<u8, 8>,
    front: &[u8],
) -> Result<(), AllocError>
    requires room { held_length next partial.old held.old.items + length front.now ≤ next_size next partial.old }
    requires part { length held.old.items < part_of next partial.old }
    ensures left { OnOk result (left_of next partial.new ≡ left_of next partial.old) }
    ensures lists { OnOk result (partial.new.lists ≡ partial.old.lists) }
    ensures held { OnOk result
        (front_of next partial.new held.new.items ≡ front_of next partial.old held.old.items ++ front.now) }
    ensures part { OnOk result (length held.new.items < part_of next partial.new) }
    ensures memory { OnErr result (12 ≤ first_at next) }
{
    match next {
        Next::NameText(_, _) => partial.name.extend_from_slice(front)?,
        Next::AttrValues(_, _) => gather_values(&mut partial.body, held, front)?,
        _ => hold_more(held, front),
    }
    Ok(())
}
