//! Layers: the items of a tree as they were at some commit, sorted, in blocks of the device.
#![tactic(auto)]

mod block;
mod decoding;
mod laws;
mod layer;
mod marks;
mod reading;
mod writer;

pub use block::{Block, DATA_MAGIC, INDEX_MAGIC, INDEX_NAMES, ROOM_BYTES};
pub use laws::{layer_bound_law, one_verdict_law, written_law};
pub use layer::{Layer, LayerFault};
pub use marks::BlockSet;
pub use reading::read_layer;
pub use writer::LayerWriter;

#[cfg(test)]
mod tests;
