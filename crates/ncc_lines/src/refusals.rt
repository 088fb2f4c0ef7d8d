//! The line of a record that isn't added, and that of how many there are. Neither takes memory: by then records may
//! be there.

ghost use Rattle.std.specs.Prelude.{◌≢◌, Err};
ghost use Rattle.ncc_values.specs.Failures.{Counts};
ghost use Rattle.ncc_schema.specs.Device.{WritesAll};
ghost use Rattle.ncc_lines.specs.Refusals.{IsLineOf, append_line};
ghost use Rattle.ncc_lines.specs.Sends.{SendsAll, Blames};
ghost use Rattle.ncc_lines.specs.Texts.{records_line};
ghost use Rattle.ncc_schema.specs.declared.schema.Count.TheVariants.{Known};

use crate::putting::put_numbered;
use crate::send_error::SendError;
use ncc_check::AppendError;
use ncc_header::{Device, Sink, write_all};

/// The line of a refusal; of `WrongValues` what stands before its number.
fn line_of(error: AppendError) -> &'static [u8]
    ensures { IsLineOf error result.now }
{
    match error {
        AppendError::Reopen => b"refused Reopen\n",
        AppendError::NoRecordVariable => b"refused NoRecordVariable\n",
        AppendError::NotPacked => b"refused NotPacked\n",
        AppendError::Streaming => b"refused Streaming\n",
        AppendError::CountFull => b"refused CountFull\n",
        AppendError::WrongValues(_) => b"refused WrongValues ",
        AppendError::Device => b"refused Device\n",
        AppendError::Memory => b"refused Memory\n",
    }
}

/// Puts out the line of a refusal.
fn put_append_line<W: Sink>(error: AppendError, sink: &mut W) -> Result<(), Device>
    ensures bytes { WritesAll (W.put sink.old) (W.put sink.new) result (append_line error) }
    ensures count { Counts (W.failures sink.old) (W.failures sink.new) result }
{
    if let AppendError::WrongValues(number) = error {
        return put_numbered(b"refused WrongValues ", number as u64, sink);
    }
    write_all(sink, line_of(error))
}

/// Sends the line of a record that isn't added, and takes no memory. After an `Err` a front of it is sent.
pub fn send_append_refusal<W: Sink>(error: AppendError, sink: &mut W) -> Result<(), SendError>
    ensures sent { SendsAll (W.put sink.old) (W.put sink.new) (append_line error) result }
    ensures count { Blames (W.failures sink.old) (W.failures sink.new) result }
    ensures never { result ≢ Err SendError.Memory }
{
    put_append_line(error, sink)?;
    Ok(())
}

/// Sends the line of how many records there are, and takes no memory. After an `Err` a front of it is sent.
pub fn send_records<W: Sink>(records: u64, sink: &mut W) -> Result<(), SendError>
    ensures sent { SendsAll (W.put sink.old) (W.put sink.new) (records_line (Known records)) result }
    ensures count { Blames (W.failures sink.old) (W.failures sink.new) result }
    ensures never { result ≢ Err SendError.Memory }
{
    put_numbered(b"records ", records, sink)?;
    Ok(())
}
