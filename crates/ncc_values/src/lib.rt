//! The values below the header of a netCDF classic file: versions, sizes, padding and lists.
#![tactic(auto)]

mod elements;
mod external;
mod failures;
mod fill;
mod inline_list;
pub mod laws;
mod name;
mod numbers;
mod padding;
mod raw;
mod seq;
mod signed;
mod unsigned;
mod values;
mod version;
mod xtype;

pub use external::External;
pub use failures::{Device, count_failure, device_failure};
pub use fill::fill_default;
pub use inline_list::{InlineList, Name};
pub use name::name_fits;
pub use numbers::number;
pub use padding::pad;
pub use raw::{Char, F32Bits, F64Bits};
pub use seq::Seq;
pub use values::Values;
pub use version::Version;
pub use xtype::XType;
