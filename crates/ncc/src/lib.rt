//! The library's door: what a program needs that checks, reads, writes or converts netCDF classic files, under one name.
//!
//! | To | Use |
//! |---|---|
//! | judge a file | `check`, `Report`, `Note`; its first fault: `Refusal`, `FileFault`, `Fault`, `LayoutFault` |
//! | read its header alone | `read_header`, `decode`, `Decoder` |
//! | open a file, and read selections | `open`, `NcFile`, `Slab`, `read_slab`, `SlabReader` |
//! | write a file | `SchemaBuilder`, `FileWriter`, `WriteFault` |
//! | add records | `append`, `extend`, `AppendError` |
//! | write it in another version | `convert` |
//! | hold its bytes, or take them as they come | `Store`: `FileStore`, `MemStore`; `Source`, `Sink` |
//!
//! The contracts are those of the crates that the names come from. What more these have, such as their laws, is there.
#![tactic(auto)]

pub use ncc_check::{AppendError, FileFault, NcFile, Note, NoteKind, Refusal, Report, check, open};
pub use ncc_convert::convert;
pub use ncc_header::{Decoder, Fault, FaultKind, Fed, HeaderError, decode, read_header};
pub use ncc_layout::{LayoutFault, LayoutFaultKind};
pub use ncc_schema::{
    Attr, Count, Dim, Header, ReadSource, Schema, Sink, Source, Var, VarPlace, WriteSink,
};
pub use ncc_slab::{Slab, SlabFault, SlabParts, SlabReader, read_slab};
pub use ncc_store::{
    AheadStore, Device, DiskFile, FileStore, MemStore, Store, SystemFile, file_options,
};
pub use ncc_values::{
    Char, F32Bits, F64Bits, InlineList, Name, Seq, Values, Version, XType, fill_default, name_fits,
};
pub use ncc_write::{
    Built, FileWriter, SchemaBuilder, TripFault, WriteFault, append, extend, fill_record, headline,
    round_trip,
};
