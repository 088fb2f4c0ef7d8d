//! Sending the lines of a command whole.

ghost use Rattle.std.specs.Prelude.{◌≢◌, Err};
ghost use Rattle.ncc_lines.specs.Texts.{list_text, fault_line};
ghost use Rattle.ncc_lines.specs.Verdicts.{report_text, file_fault_line};
ghost use Rattle.ncc_lines.specs.Sends.{SendsAll, Blames};

use crate::page::send_page;
use crate::sections::send_list;
use crate::send_error::SendError;
use crate::style::FloatStyle;
use crate::texts::put_fault;
use crate::verdict::{put_file_fault, send_verdict};
use ncc_check::{FileFault, Report};
use ncc_header::{Fault, Header, Sink};
use std::alloc::Global;

/// Sends all lines of a header, with its floats in this style, by one page that is used again. After an `Err` a front
/// of them is sent.
pub fn send_header<W: Sink>(
    alloc: Global,
    header: &Header,
    style: FloatStyle,
    sink: &mut W,
) -> Result<(), SendError>
    ensures sent { SendsAll (W.put sink.old) (W.put sink.new) (list_text style header.now) result }
    ensures count { Blames (W.failures sink.old) (W.failures sink.new) result }
{
    let mut page = Vec::new(alloc);
    send_list(header, style, &mut page, sink)?;
    send_page(&mut page, sink)
}

/// Sends the line of a header's fault, and takes no memory. After an `Err` a front of it is sent.
pub fn send_fault<W: Sink>(fault: Fault, sink: &mut W) -> Result<(), SendError>
    ensures sent { SendsAll (W.put sink.old) (W.put sink.new) (fault_line fault) result }
    ensures count { Blames (W.failures sink.old) (W.failures sink.new) result }
    ensures never { result ≢ Err SendError.Memory }
{
    put_fault(fault, sink)?;
    Ok(())
}

/// Sends all lines about a file that passes. After an `Err` a front of them is sent.
pub fn send_report<W: Sink>(alloc: Global, report: &Report, sink: &mut W) -> Result<(), SendError>
    ensures sent { SendsAll (W.put sink.old) (W.put sink.new) (report_text report.now) result }
    ensures count { Blames (W.failures sink.old) (W.failures sink.new) result }
{
    let mut page = Vec::new(alloc);
    send_verdict(report, &mut page, sink)?;
    send_page(&mut page, sink)
}

/// Sends the line of a file's fault, and takes no memory. After an `Err` a front of it is sent.
pub fn send_file_fault<W: Sink>(fault: FileFault, sink: &mut W) -> Result<(), SendError>
    ensures sent { SendsAll (W.put sink.old) (W.put sink.new) (file_fault_line fault) result }
    ensures count { Blames (W.failures sink.old) (W.failures sink.new) result }
    ensures never { result ≢ Err SendError.Memory }
{
    put_file_fault(fault, sink)?;
    Ok(())
}
