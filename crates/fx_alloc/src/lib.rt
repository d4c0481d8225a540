//! The allocator: the use of each block of a disk, and how many blocks each number may still draw.
//!
//! A block is free, drawn by a number, live, freed and not settled, a layer's, laid for the open
//! checkpoint, kept for pins alone, or the system's: one of these at a time. What a number holds
//! and has not drawn is a count among the free blocks.
#![tactic(auto)]

mod chain;
mod hints;
mod holders;
pub mod laws;
mod layers;
mod pins;
mod space;
mod uses;
mod waiting;

pub use fx_item::{Beyond, Need, Sizes};
pub use holders::{Holder, SEATS};
pub use pins::Kept;
pub use space::{Short, Space};
pub use uses::{Use, Waiting};
