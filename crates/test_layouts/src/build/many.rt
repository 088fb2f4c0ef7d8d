//! Many variables: each call takes about the same time.

ghost use Rattle.std.specs.Prelude.{◌<◌};

use ncc_build::{SchemaBuilder, WriteFault};
use ncc_values::{Version, XType};
use std::alloc::Global;
use std::test::*;

/// How many variables.
const NUMBER: u32 = 100_000;

/// A digit of the number in base 16, as a letter.
fn letter(number: u32, shift: u32) -> u8
    requires { shift < 32 }
{
    b'a' + ((number >> shift) & 0xf) as u8
}

fn many(alloc: Global) -> Result<SchemaBuilder, WriteFault> {
    let mut builder = SchemaBuilder::new(alloc, Version::V2);
    for i in 0..NUMBER {
        let name = [
            letter(i, 16),
            letter(i, 12),
            letter(i, 8),
            letter(i, 4),
            letter(i, 0),
        ];
        builder.var(&name, XType::Byte, &[])?;
    }
    Ok(builder)
}

#[test]
fn many_variables(rt: HostRuntime) -> Result<(), Fail> {
    let mut builder = many(rt.alloc()).expect(&rt, "many");
    let twice = builder.var(b"aaaaa", XType::Byte, &[]);
    assert!(rt; twice == Err(WriteFault::DuplicateName));
    assert!(rt; builder.schema().vars.len() == 100_000);
    assert!(rt; builder.build(0).is_ok());
    Ok(())
}
