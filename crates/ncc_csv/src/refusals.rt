//! The line of a selection that is refused.

ghost use Rattle.std.specs.Prelude.{◌≢◌, Err};
ghost use Rattle.ncc_values.specs.Failures.{Counts};
ghost use Rattle.ncc_schema.specs.Device.{WritesAll};
ghost use Rattle.ncc_lines.specs.Sends.{SendsAll, Blames};
ghost use Rattle.ncc_csv.specs.Refusals.{refused_line};

use ncc_header::{Device, Sink, write_all};
use ncc_lines::{SendError, put_numbered};
use ncc_slab::SlabFault;

/// Puts out the line of a refusal.
fn put_refusal<W: Sink>(fault: SlabFault, sink: &mut W) -> Result<(), Device>
    ensures bytes { WritesAll (W.put sink.old) (W.put sink.new) result (refused_line fault) }
    ensures count { Counts (W.failures sink.old) (W.failures sink.new) result }
{
    match fault {
        SlabFault::NoVariable => write_all(sink, b"refused NoVariable\n"),
        SlabFault::RankMismatch => write_all(sink, b"refused RankMismatch\n"),
        SlabFault::ZeroStride(dim) => put_numbered(b"refused ZeroStride ", dim as u64, sink),
        SlabFault::Outside(dim) => put_numbered(b"refused Outside ", dim as u64, sink),
        SlabFault::Device => write_all(sink, b"refused Device\n"),
        SlabFault::Memory => write_all(sink, b"refused Memory\n"),
    }
}

/// Sends the line of a selection that is refused, and takes no memory. After an `Err` a front of it is sent.
pub fn send_refusal<W: Sink>(fault: SlabFault, sink: &mut W) -> Result<(), SendError>
    ensures sent { SendsAll (W.put sink.old) (W.put sink.new) (refused_line fault) result }
    ensures count { Blames (W.failures sink.old) (W.failures sink.new) result }
    ensures never { result ≢ Err SendError.Memory }
{
    put_refusal(fault, sink)?;
    Ok(())
}
