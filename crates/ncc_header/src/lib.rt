//! The header of a netCDF classic file: its grammar, its faults and a decoder that takes it in pieces.
#![tactic(auto)]

mod at_front;
mod decoder;
mod decoding;
mod fault;
mod from_source;
mod gathering;
mod items;
mod judge;
pub mod laws;
mod least;
mod part;
mod partial;
mod reading;
mod rules;
mod state;
mod step;
mod taking;
mod unfinished;

pub use decoder::Decoder;
pub use decoding::decode;
pub use fault::{Fault, FaultKind, HeaderError};
pub use from_source::read_header;
pub use ncc_schema::{
    Attr, Count, Device, Dim, FuseSink, FuseSource, Header, Mark, NameOf, ReadSource, Schema, Sink,
    Source, Var, VarPlace, WriteSink, encode, header_length, is_record_var, legal,
    limit_of_offsets, name_at, sound, streaming_mark, var_size, vars_start, write_all,
};
pub use ncc_values::{InlineList, Name, Seq, Values, Version, XType, pad};
pub use part::Part;
pub use state::Fed;
pub use unfinished::Unfinished;
