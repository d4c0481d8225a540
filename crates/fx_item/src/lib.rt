//! The types that several layers share: names, byte strings, items of every kind and their bytes,
//! lock keys, lists of blocks, and the sizes of a tree.
#![tactic(auto)]

mod block;
mod bytes;
mod full;
mod item;
mod laws;
mod lock;
mod look;
mod meeting;
mod name;
mod order;
mod place;
mod reading;
mod space;
mod writing;

pub use block::{BlockList, BlockRef};
pub use bytes::Bytes;
pub use full::Full;
pub use item::{
    Checksums, Item, ItemFault, Items, Key, MAX_DEVICE_BLOCKS, MAX_EXTENT_BLOCKS, MAX_FILE_BLOCKS,
    MAX_ITEM, MAX_TEXT, Value,
};
pub use laws::{
    after_all_law, cover_law, follow_law, key_law, meet_law, order_law, overlay_law, split_law,
};
pub use lock::{KeyList, LockKey, Mode};
pub use look::{Level, Look, LookFault};
pub use meeting::{Meet, Merger};
pub use name::{MAX_NAME, Name, is_name};
pub use place::{Bound, Edge};
pub use reading::{decode, decode_name};
pub use space::{Beyond, Delta, MAX_GIVEN, Need, layer_bound};
pub use writing::{encode, encoded_len};

/// What a tree holds, the root not counted.
#[derive(Clone, Copy, Debug, PartialEq, Eq)]
pub struct Sizes {
    /// Directories and files.
    pub nodes: u32,
    /// Attributes of all nodes.
    pub attributes: u32,
    /// Held blocks of all files.
    pub blocks: u32,
}

#[cfg(test)]
mod tests;
