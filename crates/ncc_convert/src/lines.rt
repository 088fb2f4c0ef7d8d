//! The line of a file that can't be planned, and that of one that was converted.

ghost use Rattle.std.specs.Prelude.{◌≡◌, ◌≢◌, Err};
ghost use Rattle.ncc_lines.specs.Sends.{SendsAll, Blames};
ghost use Rattle.ncc_convert.specs.Lines.{converted_line, plan_line};

use ncc_build::WriteFault;
use ncc_lines::SendError;
use ncc_schema::{Sink, write_all};
use ncc_values::Version;

/// The line of a file that can't be planned.
fn plan_line(fault: WriteFault) -> &'static [u8]
    ensures { result.now ≡ plan_line fault }
{
    match fault {
        WriteFault::BadName => b"refused BadName\n",
        WriteFault::DuplicateName => b"refused DuplicateName\n",
        WriteFault::TwoRecordDims => b"refused TwoRecordDims\n",
        WriteFault::BadDimId => b"refused BadDimId\n",
        WriteFault::RecordDimNotFirst => b"refused RecordDimNotFirst\n",
        WriteFault::TypeForVersion => b"refused TypeForVersion\n",
        WriteFault::CountForVersion => b"refused CountForVersion\n",
        WriteFault::OffsetForVersion => b"refused OffsetForVersion\n",
        WriteFault::SizeForVersion => b"refused SizeForVersion\n",
        WriteFault::WrongType => b"refused WrongType\n",
        WriteFault::TooManyValues => b"refused TooManyValues\n",
        WriteFault::Unfinished => b"refused Unfinished\n",
        WriteFault::Failed => b"refused Failed\n",
        WriteFault::Complete => b"refused Complete\n",
        WriteFault::Device => b"refused Device\n",
        WriteFault::Memory => b"refused Memory\n",
    }
}

/// Sends the line of a file that can't be planned, and takes no memory. After an `Err` a front of it is sent.
pub fn send_plan_refusal<W: Sink>(fault: WriteFault, sink: &mut W) -> Result<(), SendError>
    ensures sent { SendsAll (W.put sink.old) (W.put sink.new) (plan_line fault) result }
    ensures count { Blames (W.failures sink.old) (W.failures sink.new) result }
    ensures never { result ≢ Err SendError.Memory }
{
    write_all(sink, plan_line(fault))?;
    Ok(())
}

/// The line of a file that was converted.
fn converted_line(version: Version) -> &'static [u8]
    ensures { result.now ≡ converted_line version }
{
    match version {
        Version::V1 => b"ok CDF-1\n",
        Version::V2 => b"ok CDF-2\n",
        Version::V5 => b"ok CDF-5\n",
    }
}

/// Sends the line of a file that was converted, and takes no memory. After an `Err` a front of it is sent.
pub fn send_converted<W: Sink>(version: Version, sink: &mut W) -> Result<(), SendError>
    ensures sent { SendsAll (W.put sink.old) (W.put sink.new) (converted_line version) result }
    ensures count { Blames (W.failures sink.old) (W.failures sink.new) result }
    ensures never { result ≢ Err SendError.Memory }
{
    write_all(sink, converted_line(version))?;
    Ok(())
}
