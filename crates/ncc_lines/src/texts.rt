//! The lines that are printed.

ghost use Rattle.std.specs.Prelude.{◌≡◌, ◌++◌, decimal, OnOk};
ghost use Rattle.ncc_values.specs.Failures.{Counts};
ghost use Rattle.ncc_schema.specs.Device.{WritesAll};
ghost use Rattle.ncc_lines.specs.Texts.{version_text, format_line, records_line, head_lines, length_text, dim_start, dim_end, fault_word, at_line, fault_line};

use crate::putting::put_at;
use itoa::Buffer;
use ncc_header::{Count, Device, Fault, FaultKind, Schema, Sink, Version};
use std::alloc::AllocError;

pub fn push_decimal(out: &mut Vec<u8>, n: u64) -> Result<(), AllocError>
    ensures { OnOk result (out.new.items ≡ out.old.items ++ decimal n) }
{
    if n < 10 {
        out.push(b'0' + n as u8)?;
        return Ok(());
    }
    if n < 100 {
        return out.extend_from_slice(&[b'0' + (n / 10) as u8, b'0' + (n % 10) as u8]);
    }
    let mut buffer = Buffer::new();
    out.extend_from_slice(buffer.format(n).as_bytes())?;
    Ok(())
}

/// The word that names a version.
pub fn version_word(version: Version) -> &'static str
    ensures { result.now ≡ version_text version }
{
    match version {
        Version::V1 => "CDF-1",
        Version::V2 => "CDF-2",
        Version::V5 => "CDF-5",
    }
}

fn push_version(out: &mut Vec<u8>, version: Version) -> Result<(), AllocError>
    ensures { OnOk result (out.new.items ≡ out.old.items ++ format_line version) }
{
    out.extend_from_slice(b"format ")?;
    out.extend_from_slice(version_word(version).as_bytes())?;
    out.extend_from_slice(b"\n")?;
    Ok(())
}

pub(crate) fn push_records(out: &mut Vec<u8>, count: Count) -> Result<(), AllocError>
    ensures { OnOk result (out.new.items ≡ out.old.items ++ records_line count) }
{
    match count {
        Count::Known(n) => {
            out.extend_from_slice(b"records ")?;
            push_decimal(out, n)?;
            out.extend_from_slice(b"\n")?;
        }
        Count::Streaming => out.extend_from_slice(b"records streaming\n")?,
    }
    Ok(())
}

fn push_length(out: &mut Vec<u8>, length: u64) -> Result<(), AllocError>
    ensures { OnOk result (out.new.items ≡ out.old.items ++ length_text length) }
{
    if length == 0 {
        out.extend_from_slice(b"unlimited")?;
        return Ok(());
    }
    push_decimal(out, length)
}

/// Adds the line of a dimension up to its name.
#[tactic(auto, unfolding(crate::specs::Texts::dim_start))]
pub fn push_dim_start(out: &mut Vec<u8>, number: usize) -> Result<(), AllocError>
    ensures { OnOk result (out.new.items ≡ out.old.items ++ dim_start number) }
{
    out.extend_from_slice(b"dimension ")?;
    push_decimal(out, number as u64)?;
    out.extend_from_slice(b" ")?;
    Ok(())
}

/// Adds the line of a dimension after its name.
#[tactic(auto, unfolding(crate::specs::Texts::dim_end))]
pub fn push_dim_end(out: &mut Vec<u8>, length: u64) -> Result<(), AllocError>
    ensures { OnOk result (out.new.items ≡ out.old.items ++ dim_end length) }
{
    out.extend_from_slice(b" ")?;
    push_length(out, length)?;
    out.extend_from_slice(b"\n")?;
    Ok(())
}

/// Adds the lines of the format and the number of records.
pub fn push_head(out: &mut Vec<u8>, schema: &Schema) -> Result<(), AllocError>
    ensures { OnOk result (out.new.items ≡ out.old.items ++ head_lines schema.now) }
{
    push_version(out, schema.version)?;
    push_records(out, schema.count)
}

/// The word that names a fault.
pub fn fault_name(kind: FaultKind) -> &'static str
    ensures { result.now ≡ fault_word kind }
{
    match kind {
        FaultKind::BadMagic => "BadMagic",
        FaultKind::BadVersion => "BadVersion",
        FaultKind::NegativeCount => "NegativeCount",
        FaultKind::BadTag => "BadTag",
        FaultKind::BadType => "BadType",
        FaultKind::TwoRecordDims => "TwoRecordDims",
        FaultKind::BadDimId => "BadDimId",
        FaultKind::RecordDimNotFirst => "RecordDimNotFirst",
        FaultKind::NegativeOffset => "NegativeOffset",
        FaultKind::HeaderTooLong => "HeaderTooLong",
        FaultKind::EndsEarly => "EndsEarly",
    }
}

/// Adds the line of what is at an offset: its head and the word that names it.
#[tactic(auto, unfolding(crate::specs::Texts::at_line))]
pub fn push_at(out: &mut Vec<u8>, head: &[u8], word: &str, offset: u64) -> Result<(), AllocError>
    ensures { OnOk result (out.new.items ≡ out.old.items ++ at_line head.now word.now offset) }
{
    out.extend_from_slice(head)?;
    out.extend_from_slice(word.as_bytes())?;
    out.extend_from_slice(b" at ")?;
    push_decimal(out, offset)?;
    out.extend_from_slice(b"\n")?;
    Ok(())
}

/// Puts out the line of a fault.
pub fn put_fault<W: Sink>(fault: Fault, sink: &mut W) -> Result<(), Device>
    ensures bytes { WritesAll (W.put sink.old) (W.put sink.new) result (fault_line fault) }
    ensures count { Counts (W.failures sink.old) (W.failures sink.new) result }
{
    put_at(b"fault ", fault_name(fault.kind), fault.offset, sink)
}
