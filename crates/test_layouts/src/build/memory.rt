//! Building where memory may be refused. The tests themselves take none: scripts/refuse_test_memory.sh
//! refuses one allocation after another.

ghost use Rattle.std.specs.Prelude.{◌<◌};

use super::helpers::attr;
use ncc_build::{SchemaBuilder, WriteFault, rebuilt};
use ncc_schema::Schema;
use ncc_values::{InlineList, Values, Version, XType};
use std::alloc::Global;
use std::test::*;

/// Calls, each of which wants memory, until one is refused.
fn calls(alloc: Global, builder: &mut SchemaBuilder) -> Result<(), WriteFault> {
    builder.dim(b"t", 0)?;
    builder.dim(b"x", 3)?;
    builder.global(b"title", Values::Ints(InlineList::new(alloc)))?;
    let number = builder.var(b"v", XType::Short, &[0, 1])?;
    attr(
        builder,
        number,
        b"units",
        Values::Chars(InlineList::new(alloc)),
    )?;
    builder.var(b"w", XType::Byte, &[1])?;
    Ok(())
}

/// The refused call left nothing: the same calls again are refused as names that are there, or pass.
#[test]
fn builds_without_memory(rt: HostRuntime) {
    let mut builder = SchemaBuilder::new(rt.alloc(), Version::V1);
    let outcome = calls(rt.alloc(), &mut builder);
    assert!(rt; outcome == Ok(()) || outcome == Err(WriteFault::Memory));
    let again = calls(rt.alloc(), &mut builder);
    assert!(rt;
        again == Ok(())
            || again == Err(WriteFault::DuplicateName)
            || again == Err(WriteFault::Memory)
    );
    match builder.build(2) {
        Ok(built) => assert!(rt; built.places().len() == built.schema().vars.len()),
        Err((_, fault)) => assert!(rt; fault == WriteFault::Memory),
    }
}

/// A dimension that was refused for want of memory is taken at the next call, under the same name.
#[test]
fn refused_dim_without_memory(rt: HostRuntime) {
    let mut builder = SchemaBuilder::new(rt.alloc(), Version::V1);
    if builder.dim(b"t", 0) == Err(WriteFault::Memory) {
        assert!(rt; builder.dim(b"t", 0) == Ok(0));
    }
    assert!(rt; builder.dim(b"t", 0) == Err(WriteFault::DuplicateName));
}

/// So is a variable, and an attribute of it.
#[test]
fn refused_var_without_memory(rt: HostRuntime) {
    let alloc = rt.alloc();
    let mut builder = SchemaBuilder::new(alloc, Version::V1);
    let first = match builder.var(b"v", XType::Int, &[]) {
        Ok(number) => number,
        Err(fault) => {
            assert!(rt; fault == WriteFault::Memory);
            let again = builder.var(b"v", XType::Int, &[]);
            assert!(rt; again == Ok(0));
            return;
        }
    };
    let values = Values::Ints(InlineList::new(alloc));
    if attr(&mut builder, first, b"a", values) == Err(WriteFault::Memory) {
        let again = attr(
            &mut builder,
            first,
            b"a",
            Values::Ints(InlineList::new(alloc)),
        );
        assert!(rt; again == Ok(()));
    }
    let twice = attr(
        &mut builder,
        first,
        b"a",
        Values::Ints(InlineList::new(alloc)),
    );
    assert!(rt; twice == Err(WriteFault::DuplicateName));
}

/// A name of a letter and two digits.
fn numbered(number: usize) -> [u8; 3]
    requires { number < 100 }
{
    [b'n', b'0' + (number / 10) as u8, b'0' + (number % 10) as u8]
}

/// A name that a long list doesn't take for want of memory is taken at the next call, and none is lost.
#[test]
fn refused_names_without_memory(rt: HostRuntime) {
    let mut builder = SchemaBuilder::new(rt.alloc(), Version::V1);
    for number in 0..66 {
        let name = numbered(number);
        let mut added = builder.dim(&name, 1);
        if added == Err(WriteFault::Memory) {
            added = builder.dim(&name, 1);
        }
        assert!(rt; added == Ok(number));
    }
    for number in 0..66 {
        assert!(rt; builder.dim(&numbered(number), 1) == Err(WriteFault::DuplicateName));
    }
}

/// A variable of so many attributes.
fn described(alloc: Global, builder: &mut SchemaBuilder, count: usize) -> Result<(), WriteFault>
    requires { count < 100 }
{
    let var = builder.var(b"v", XType::Int, &[])?;
    for number in 0..count {
        attr(
            builder,
            var,
            &numbered(number),
            Values::Ints(InlineList::new(alloc)),
        )?;
    }
    Ok(())
}

/// How many attributes the one variable has that was built anew; at the second call, if the first was refused memory.
fn attributes_anew(alloc: Global, schema: &Schema) -> Option<usize> {
    let mut anew = rebuilt(alloc, schema, Version::V5, 0);
    if let Err(WriteFault::Memory) = anew {
        anew = rebuilt(alloc, schema, Version::V5, 0);
    }
    let Ok(built) = anew else {
        return None;
    };
    let first = built.schema().vars.as_slice().first()?;
    Some(first.attrs.len())
}

/// What is built anew has all attributes, few or many, after memory was refused too.
#[test]
fn rebuilds_without_memory(rt: HostRuntime) {
    let alloc = rt.alloc();
    for count in [3, 66] {
        let mut builder = SchemaBuilder::new(alloc, Version::V1);
        if described(alloc, &mut builder, count).is_err() {
            continue;
        }
        let Ok(built) = builder.build(0) else {
            continue;
        };
        assert!(rt; attributes_anew(alloc, built.schema()) == Some(count));
    }
}
