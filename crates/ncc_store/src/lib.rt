//! Stores: bytes that are read and written at a place, and what a stop at any moment may leave of them.
#![tactic(auto)]

mod ahead;
mod copying;
mod device;
mod disk_file;
mod file;
mod fuse;
pub mod laws;
mod log;
mod log_file;
mod logging;
mod long;
mod memory;
mod opening;
mod putting;
mod store;
mod system_file;

pub use ahead::AheadStore;
pub use disk_file::DiskFile;
pub use file::FileStore;
pub use fuse::FuseStore;
pub use log::{Call, LogStore};
pub use log_file::LogFile;
pub use long::LongStore;
pub use memory::MemStore;
pub use ncc_values::Device;
pub use opening::file_options;
pub use store::Store;
pub use system_file::SystemFile;
