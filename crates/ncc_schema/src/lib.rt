//! What the header of a netCDF classic file says, its canonical spelling, and what bytes are read from and put out to.
#![tactic(auto)]

mod encoder;
mod fuse;
pub mod laws;
mod legality;
mod lengths;
mod limits;
mod names;
mod numbers;
mod record_vars;
mod rules;
mod schema;
mod sink;
mod source;
mod tags;

pub use encoder::encode;
pub use fuse::{FuseSink, FuseSource};
pub use legality::{legal, sound};
pub use lengths::{gatts_at, header_length, vars_start};
pub use limits::{
    greatest_vsize, limit_of_counts, limit_of_lengths, limit_of_offsets, streaming_mark,
};
pub use names::{NameOf, name_at};
pub use ncc_values::Device;
pub use record_vars::is_record_var;
pub use rules::attr::attr_size;
pub use rules::dim::dim_size;
pub use rules::list::list_size;
pub use rules::name::name_size;
pub use rules::var::{attrs_in, var_size};
pub use schema::{Attr, Count, Dim, Header, Mark, Schema, Var, VarPlace};
pub use sink::{Sink, WriteSink, write_all};
pub use source::{ReadSource, Source};
pub use tags::{NC_ATTRIBUTE, NC_DIMENSION, NC_VARIABLE};
