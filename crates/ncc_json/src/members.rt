//! Members of objects: a name and a value.

ghost use Rattle.std.specs.Prelude.{◌≡◌, ◌++◌, OnOk};
ghost use Rattle.ncc_json.specs.Members.{bytes_member, fault_members, list_start, number_member, object_start, text_member, wide_member};

use crate::values::{put_bytes, put_wide_value};
use json::Writer;
use std::alloc::{AllocError, Global};

/// Adds a number with its name.
#[tactic(auto, unfolding(crate::specs::Members::number_member))]
pub fn put_number(out: &mut Writer, name: &str, n: u64) -> Result<(), AllocError>
    ensures tokens { OnOk result (out.new.tokens ≡ out.old.tokens ++ number_member name.now n) }
    ensures before { out.new.before ≡ out.old.before }
{
    out.key(name)?;
    out.u64(n)?;
    Ok(())
}

/// Adds a number of up to 128 bits with its name.
#[tactic(auto, unfolding(crate::specs::Members::wide_member))]
pub fn put_wide(out: &mut Writer, name: &str, n: u128) -> Result<(), AllocError>
    ensures tokens { OnOk result (out.new.tokens ≡ out.old.tokens ++ wide_member name.now n) }
    ensures before { out.new.before ≡ out.old.before }
{
    out.key(name)?;
    put_wide_value(out, n)?;
    Ok(())
}

/// Adds a text with its name.
#[tactic(auto, unfolding(crate::specs::Members::text_member))]
pub fn put_text(out: &mut Writer, name: &str, text: &str) -> Result<(), AllocError>
    ensures tokens { OnOk result (out.new.tokens ≡ out.old.tokens ++ text_member name.now text.now) }
    ensures before { out.new.before ≡ out.old.before }
{
    out.key(name)?;
    out.string(text)?;
    Ok(())
}

/// Adds bytes that may be no text, with their name.
#[tactic(auto, unfolding(crate::specs::Members::bytes_member))]
pub fn put_bytes_member(
    alloc: Global,
    out: &mut Writer,
    name: &str,
    bytes: &[u8],
) -> Result<(), AllocError>
    ensures tokens { OnOk result (out.new.tokens ≡ out.old.tokens ++ bytes_member name.now bytes.now) }
    ensures before { out.new.before ≡ out.old.before }
{
    out.key(name)?;
    put_bytes(alloc, out, bytes)?;
    Ok(())
}

/// Adds two numbers with their names.
pub fn put_two(
    out: &mut Writer,
    first: &str,
    a: u128,
    second: &str,
    b: u128,
) -> Result<(), AllocError>
    ensures tokens { OnOk result
        (out.new.tokens ≡ out.old.tokens ++ (wide_member first.now a ++ wide_member second.now b)) }
    ensures before { out.new.before ≡ out.old.before }
{
    put_wide(out, first, a)?;
    put_wide(out, second, b)?;
    Ok(())
}

/// Begins a list.
#[tactic(auto, unfolding(crate::specs::Members::list_start))]
pub fn put_list(out: &mut Writer, name: &str) -> Result<(), AllocError>
    ensures tokens { OnOk result (out.new.tokens ≡ out.old.tokens ++ list_start name.now) }
    ensures before { out.new.before ≡ out.old.before }
{
    out.key(name)?;
    out.begin_array()?;
    Ok(())
}

/// Begins an object with a name.
#[tactic(auto, unfolding(crate::specs::Members::object_start))]
pub fn put_object(out: &mut Writer, name: &str) -> Result<(), AllocError>
    ensures tokens { OnOk result (out.new.tokens ≡ out.old.tokens ++ object_start name.now) }
    ensures before { out.new.before ≡ out.old.before }
{
    out.key(name)?;
    out.begin_object()?;
    Ok(())
}

/// Adds a fault with its offset.
#[tactic(auto, unfolding(crate::specs::Members::fault_members))]
pub fn put_fault(out: &mut Writer, fault: &str, offset: u64) -> Result<(), AllocError>
    ensures tokens { OnOk result (out.new.tokens ≡ out.old.tokens ++ fault_members fault.now offset) }
    ensures before { out.new.before ≡ out.old.before }
{
    put_text(out, "verdict", "fault")?;
    put_text(out, "fault", fault)?;
    put_number(out, "offset", offset)?;
    Ok(())
}
