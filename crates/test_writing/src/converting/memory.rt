//! Conversions where memory may be refused. scripts/refuse_test_memory.sh refuses one allocation after another.

ghost use Rattle.std.specs.Prelude.{IfSome};
ghost use Rattle.ncc_build.specs.Builds.{schema_of as planned_schema};
ghost use Rattle.ncc_check.specs.Files.{schema_of, placed_of};
ghost use Rattle.ncc_write.specs.Planned.{IsPlanned};

use ncc_check::{NcFile, open};
use ncc_convert::convert;
use ncc_lines::{SendError, Unshown};
use ncc_schema::WriteSink;
use ncc_store::MemStore;
use ncc_values::Version;
use ncc_write::{Built, WriteFault, planned};
use std::alloc::Global;
use std::process::Abort;
use std::test::*;
use test_files::{FIXED, FIXED_IN_CDF_2, LIMIT, bytes_of};

/// Short v(x) in CDF-1, over a store.
fn opened(alloc: Global) -> Option<NcFile<MemStore>> {
    let bytes = bytes_of(alloc, &FIXED).ok()?;
    open(alloc, MemStore::new(bytes), LIMIT).ok()
}

/// The file, planned in CDF-2, and a sink with room for it. Where there is none, memory was refused.
fn plan_in_room<R: Abort + AllocGlobal>(
    rt: &R,
    file: &NcFile<MemStore>,
) -> Option<(Built, WriteSink<Vec<u8>>)>
    ensures planned { IfSome result (λ r. IsPlanned (schema_of file.now) (placed_of file.now) (planned_schema r.0)) }
{
    let out = Vec::with_capacity(rt.alloc(), 92).ok()?;
    match planned(rt.alloc(), file, Version::V2) {
        Ok(built) => Some((built, WriteSink::new(out))),
        Err(fault) => {
            assert!(rt; fault == WriteFault::Memory);
            None
        }
    }
}

#[test]
fn converts_without_memory(rt: HostRuntime) {
    let Some(opened) = opened(rt.alloc()) else {
        return;
    };
    let mut file = opened;
    let Some((built, sink)) = plan_in_room(&rt, &file) else {
        return;
    };
    let (sink, result) = convert(rt.alloc(), &mut file, built, sink, &mut Unshown);
    let out = sink.into_inner();
    if result == Err(SendError::Memory) {
        assert!(rt; out.is_empty());
        return;
    }
    assert!(rt; result == Ok(()));
    if let Ok(whole) = bytes_of(rt.alloc(), &FIXED_IN_CDF_2) {
        assert!(rt; out.as_slice() == whole.as_slice());
    }
}
