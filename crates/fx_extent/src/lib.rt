//! The blocks of files: where they are found, the items that say where they lie, and which of them a
//! write or a truncation touches and what it puts into them.
#![tactic(auto)]

mod laws;
mod looking;
mod patching;
mod reading;
mod storing;
mod taking;
mod touching;

pub use laws::{file_laws, patch_laws, read_laws};
pub use looking::block_of;
pub use patching::{Patch, put_patch, put_patches, text_patch, zero_patch};
pub use reading::read_part;
pub use storing::{NewBlock, Staged, extents, taken_away};
pub use taking::allocations;
pub use touching::{covered, cut_blocks, is_cut_inside, is_partly_covered};

#[cfg(test)]
mod tests;
