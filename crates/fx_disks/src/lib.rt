//! Two disks: one in memory, which keeps its record and gives every image that a stop may leave,
//! and one over a file.
#![tactic(auto)]

mod call;
mod file;
mod image;
mod left;
mod memory;
mod numbers;
mod pick;
mod track;

pub use file::FileDisk;
pub use image::Image;
pub use memory::MemDisk;
pub use pick::{Loose, Pick};

#[cfg(test)]
mod tests;
