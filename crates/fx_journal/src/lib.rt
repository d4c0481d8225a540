//! The journal: a ring of blocks of a disk, the stream of journal blocks that is read from it, and
//! the queue of those that are not written yet.
#![tactic(auto)]

pub mod laws;
mod place;
mod ring;
mod ring_buffers;
mod stream;
mod walker;

pub use fx_item::Full;
pub use place::block_number;
pub use ring::{Ring, Wrote};
pub use stream::{Blocks, Stream, StreamBlock, WalkFault};
pub use walker::walk;

#[cfg(test)]
mod fake;
#[cfg(test)]
mod walk_tests;
