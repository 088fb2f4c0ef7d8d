//! The first layout rule that fails.

ghost use Rattle.std.specs.List.{AllByRecursion};
ghost use Rattle.std.specs.List.Sorted.{IsPermutation};
ghost use Rattle.ncc_layout.specs.Bounds.{HasBytes, AreNumbered, RecordsJudged, JudgedLater, Judged};

use crate::extent::Extent;
use crate::fault::LayoutFaultKind;
use crate::records::first_begin;
use crate::rules::fixed_after_records::fixed_after_records;
use crate::rules::in_header::in_header;
use crate::rules::overlap::overlap;
use crate::rules::record_window::record_window;
use crate::rules::truncated::truncated;

/// The numbers of a file by which its extents are judged.
#[derive(Clone, Copy)]
pub struct Frame {
    pub header_length: u64,
    pub file_length: u64,
    pub record_size: u64,
    pub records: u64,
}

/// The first record variable that leaves its record, else the first fixed variable that isn't
/// before the records.
fn records_fault(extents: &[Extent], record_size: u64) -> Option<(LayoutFaultKind, usize)>
    ensures { RecordsJudged record_size extents.now result }
{
    let begin = first_begin(extents)? as u128;
    if let Some(variable) = record_window(extents, begin + record_size as u128) {
        return Some((LayoutFaultKind::RecordWindow, variable));
    }
    let variable = fixed_after_records(extents, begin)?;
    Some((LayoutFaultKind::FixedAfterRecords, variable))
}

/// The first rule after that of overlaps that fails, and the variable that breaks it.
fn later_fault(extents: &[Extent], frame: Frame) -> Option<(LayoutFaultKind, usize)>
    ensures { JudgedLater frame.file_length frame.record_size frame.records extents.now result }
{
    if let Some(fault) = records_fault(extents, frame.record_size) {
        return Some(fault);
    }
    let variable = truncated(extents, frame.file_length, frame.record_size, frame.records)?;
    Some((LayoutFaultKind::Truncated, variable))
}

/// The first rule that fails, and the variable that breaks it. The extents may be put into another order, but the
/// rules tell the first that breaks them in the order of the header. So those after that of overlaps are asked before.
pub fn first_fault(extents: &mut [Extent], frame: Frame) -> Option<(LayoutFaultKind, usize)>
    requires bytes { AllByRecursion HasBytes extents.old }
    requires numbered { AreNumbered extents.old }
    ensures judged { Judged frame.header_length frame.file_length frame.record_size frame.records extents.old result }
    ensures moved { IsPermutation extents.old extents.new }
{
    if let Some(variable) = in_header(extents, frame.header_length) {
        return Some((LayoutFaultKind::InHeader, variable));
    }
    let later = later_fault(extents, frame);
    match overlap(extents) {
        Some(variable) => Some((LayoutFaultKind::Overlap, variable)),
        None => later,
    }
}
