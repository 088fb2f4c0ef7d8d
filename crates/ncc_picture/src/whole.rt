//! The whole picture, in memory.

ghost use Rattle.std.specs.Prelude.{◌≡◌, ◌++◌, IfOk, OnOk};
ghost use Rattle.ncc_layout.specs.Sizes.{AreSizes};
ghost use Rattle.ncc_check.specs.FromStore.{IsBegun};
ghost use Rattle.ncc_check.specs.Notes.{extents_in};
ghost use Rattle.ncc_places.specs.Ends.{end_of_all, records_in};
ghost use Rattle.ncc_places.specs.Order.{by_begin};
ghost use Rattle.ncc_picture.specs.Parts.{parts_in};
ghost use Rattle.ncc_picture.specs.Pictures.{frame_in, picture, picture_text};

use crate::choosing::largest;
use crate::document::{closing, push_before_shapes};
use crate::file_bar::push_file_bar;
use crate::frame::Frame;
use crate::parts::{Part, parts_of};
use crate::record_bar::push_record_bar;
use crate::rows::{height, push_rows, top_of};
use ncc_header::Schema;
use ncc_places::{Laid, Measured, extents_in, lay, slabs_end};
use std::alloc::{AllocError, Global};

/// Adds the picture.
fn push_picture(
    alloc: Global,
    out: &mut Vec<u8>,
    schema: &Schema,
    frame: Frame,
    parts: &[Part],
) -> Result<(), AllocError>
    ensures { OnOk result (out.new.items ≡ out.old.items ++ picture schema.now frame parts.now) }
{
    push_before_shapes(out, height(frame, parts.len()))?;
    push_file_bar(alloc, out, schema, frame, parts)?;
    push_record_bar(alloc, out, schema, frame.slabs_end, frame.records, parts)?;
    push_rows(alloc, out, schema, frame, top_of(frame.records), parts)?;
    out.extend_from_slice(closing())?;
    Ok(())
}

/// The numbers of a file.
fn frame_of(file: &Measured, laid: &Laid) -> Frame
    requires extents { laid.now.extents.items ≡ by_begin (extents_in file.now.header) }
    requires records { laid.now.records ≡ records_in file.now.header file.now.file_length }
    requires past { laid.now.past ≡ end_of_all file.now.header.length (extents_in file.now.header)
        (records_in file.now.header file.now.file_length) }
    ensures { result ≡ frame_in file.now.header file.now.file_length }
{
    Frame {
        file_length: file.file_length,
        header_length: file.header.length,
        past: laid.past,
        records: laid.records,
        slabs_end: slabs_end(&laid.extents),
    }
}

/// The variables of a file, of which these extents are in the order of their begins.
fn parts_in(alloc: Global, file: &Measured, laid: &Laid) -> Result<Vec<Part>, AllocError>
    requires begun { IsBegun file.now.header }
    requires sizes { AreSizes file.now.header.schema file.now.sizes }
    requires extents { laid.now.extents.items ≡ by_begin (extents_in file.now.header) }
    ensures { IfOk result (λ v. v.items ≡ parts_in file.now.header) }
{
    let header = &file.header;
    let extents = extents_in(alloc, header, &file.sizes)?;
    let large = largest(alloc, &extents)?;
    parts_of(alloc, header.length, &large, &laid.extents)
}

/// The picture of a file.
pub fn picture_text(alloc: Global, file: &Measured) -> Result<Vec<u8>, AllocError>
    requires begun { IsBegun file.now.header }
    requires sizes { AreSizes file.now.header.schema file.now.sizes }
    ensures { IfOk result (λ v. v.items ≡ picture_text file.now.header file.now.file_length) }
{
    let laid = lay(alloc, file)?;
    let parts = parts_in(alloc, file, &laid)?;
    let mut out = Vec::new(alloc);
    push_picture(
        alloc,
        &mut out,
        &file.header.schema,
        frame_of(file, &laid),
        &parts,
    )?;
    Ok(out)
}
