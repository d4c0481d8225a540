//! Superblocks: the two blocks of a device that say where everything else lies. They are written in
//! turn, and the one of greater generation is chosen, so that a stop within a write leaves the
//! other.
#![tactic(auto)]

mod choice;
mod decode;
mod encode;
pub mod laws;
mod layers;
mod superblock;

pub use choice::{Which, choose};
pub use decode::{SuperFault, decode_super};
pub use encode::encode_super;
pub use layers::{LAYERS, LayerList};
pub use superblock::{
    COUNT_END, MAGIC, MAX_BLOCKS, MAX_GENERATION, MAX_NEXT_STORE, MAX_RING, MIN_BLOCKS, MIN_RING,
    RING_AT, RING_SHARE, SPARE_BLOCKS, SUM_AT, Super, VERSION, first_super,
};

#[cfg(test)]
mod tests;
