//! The text of a layout, in memory.

ghost use Rattle.std.specs.Prelude.{◌≡◌, IfOk};
ghost use Rattle.ncc_layout.specs.Sizes.{AreSizes};
ghost use Rattle.ncc_check.specs.FromStore.{IsBegun};
ghost use Rattle.json.specs.Print.{print};
ghost use Rattle.ncc_check.specs.Notes.{extents_in};
ghost use Rattle.ncc_places.specs.Ends.{end_of_all, records_in};
ghost use Rattle.ncc_places.specs.Layouts.{layout_told};
ghost use Rattle.ncc_places.specs.Members.{file_fault_members, layout_members};
ghost use Rattle.ncc_places.specs.Order.{by_begin};
ghost use Rattle.ncc_places.specs.Words.{layout_text};

use crate::ends::{Records, end_of_all, records_in};
use crate::lines::{push_head, push_records, push_rest, push_variables};
use crate::measuring::Measured;
use crate::objects::{put_file_fault, put_head, put_records, put_rest, put_variables};
use crate::ordering::{extents_in, order};
use json::Writer;
use ncc_check::FileFault;
use ncc_json::Wording;
use ncc_layout::Extent;
use std::alloc::{AllocError, Global};

/// What lies where in a file: its variables in their order, its records, and where all ends.
#[derive(Drop)]
pub struct Laid {
    pub extents: Vec<Extent>,
    pub records: Option<Records>,
    /// Where all ends that the header speaks of.
    pub past: u128,
}

/// Finds what lies where.
pub fn lay(alloc: Global, file: &Measured) -> Result<Laid, AllocError>
    requires begun { IsBegun file.now.header }
    requires sizes { AreSizes file.now.header.schema file.now.sizes }
    ensures extents { IfOk result (λ x. x.extents.items ≡ by_begin (extents_in file.now.header)) }
    ensures records { IfOk result (λ x. x.records ≡ records_in file.now.header file.now.file_length) }
    ensures past { IfOk result (λ x. x.past ≡ end_of_all file.now.header.length (extents_in file.now.header)
        (records_in file.now.header file.now.file_length)) }
{
    let header = &file.header;
    let mut extents = extents_in(alloc, header, &file.sizes)?;
    let records = records_in(header, &file.sizes, &extents, file.file_length);
    let past = end_of_all(header.length, &extents, records);
    order(&mut extents);
    Ok(Laid {
        extents,
        records,
        past,
    })
}

/// Where everything in a file lies, in lines.
fn layout_text(alloc: Global, file: &Measured) -> Result<Vec<u8>, AllocError>
    requires begun { IsBegun file.now.header }
    requires sizes { AreSizes file.now.header.schema file.now.sizes }
    ensures { IfOk result (λ v. v.items ≡ layout_text file.now.header file.now.file_length) }
{
    let header = &file.header;
    let laid = lay(alloc, file)?;
    let mut out = Vec::new(alloc);
    push_head(&mut out, file.file_length, header.length)?;
    push_variables(&mut out, &header.schema, header.length, &laid.extents)?;
    push_records(&mut out, laid.records)?;
    push_rest(&mut out, file.file_length, laid.past)?;
    Ok(out)
}

/// The same as members of an object.
fn layout_object(alloc: Global, file: &Measured) -> Result<Vec<u8>, AllocError>
    requires begun { IsBegun file.now.header }
    requires sizes { AreSizes file.now.header.schema file.now.sizes }
    ensures { IfOk result (λ v. v.items ≡ print (layout_members file.now.header file.now.file_length)) }
{
    let header = &file.header;
    let laid = lay(alloc, file)?;
    let mut out = Writer::new(Vec::new(alloc));
    put_head(&mut out, file.file_length, header.length)?;
    put_variables(
        alloc,
        &mut out,
        &header.schema,
        header.length,
        &laid.extents,
    )?;
    put_records(&mut out, laid.records)?;
    put_rest(&mut out, file.file_length, laid.past)?;
    Ok(out.into_inner())
}

/// Where everything in a file lies.
pub fn layout_told(alloc: Global, file: &Measured, wording: Wording) -> Result<Vec<u8>, AllocError>
    requires begun { IsBegun file.now.header }
    requires sizes { AreSizes file.now.header.schema file.now.sizes }
    ensures { IfOk result (λ v. v.items ≡ layout_told wording file.now.header file.now.file_length) }
{
    match wording {
        Wording::Words => layout_text(alloc, file),
        Wording::Members => layout_object(alloc, file),
    }
}

/// A file's fault as members of an object.
pub fn fault_object(alloc: Global, fault: FileFault) -> Result<Vec<u8>, AllocError>
    ensures { IfOk result (λ v. v.items ≡ print (file_fault_members fault)) }
{
    let mut out = Writer::new(Vec::new(alloc));
    put_file_fault(&mut out, fault)?;
    Ok(out.into_inner())
}
