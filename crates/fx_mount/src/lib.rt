//! The beginning of an image's life: formatting a disk, and mounting it.
#![tactic(auto)]

mod fault;
mod find;
mod format;
pub mod laws;
mod mounting;
mod reading;

pub use fault::{MkfsFault, MountFault};
pub use format::mkfs;
pub use fx_store::{Mark, Store, StoreEnd};
pub use mounting::{Unmounted, mount};
