//! The items of the trees: what stands under which key.
ghost use Rattle.std.specs.Prelude.{◌≡◌};
ghost use Rattle.fx_item.specs.Item.{key_of, is_name_key};

use crate::bytes::Bytes;
use crate::name::Name;
use fx_base::List;
use std::alloc::{AllocError, AllocFailed};
use thiserror::Error;

/// The most bytes of an item: an attribute with a name of 255 and a text of 256 bytes has as many.
pub const MAX_ITEM: usize = 528;

/// The most bytes of an attribute's text.
pub const MAX_TEXT: usize = 256;

/// The most blocks that one extent with blocks stands for.
pub const MAX_EXTENT_BLOCKS: usize = 32;

/// The most blocks of a file.
pub const MAX_FILE_BLOCKS: u32 = 4_096;

/// The most blocks of a device.
pub const MAX_DEVICE_BLOCKS: u32 = 65_536;

/// The checksums of blocks, one after another.
pub type Checksums = List<u64>;

/// What an item speaks of. Ranges are half-open.
#[derive(Debug, Drop)]
pub enum Key {
    /// The node `id` of a store.
    Object {
        store: u32,
        id: u64,
    },
    /// The attribute of that name of a node.
    Attribute {
        store: u32,
        id: u64,
        name: Name,
    },
    /// Blocks of a file, by their places in it.
    Extent {
        store: u32,
        id: u64,
        start: u32,
        end: u32,
    },
    /// The child of that name in the directory `id` of a store.
    Child {
        store: u32,
        id: u64,
        name: Name,
    },
    /// A node in the graveyard: it was removed, and what it holds is still to be freed.
    Grave {
        store: u32,
        id: u64,
    },
    /// Blocks of the device.
    Allocation {
        start: u32,
        end: u32,
    },
}

/// What stands under a key.
#[derive(Debug, Drop)]
pub enum Value {
    /// Nothing any more: a tombstone, which hides what older lists have there.
    Gone,
    /// A directory.
    Dir,
    /// A file of that many bytes.
    File { length: u32 },
    /// The attribute has that text.
    Attribute { text: Bytes },
    /// The child is the node `id` of that store.
    Child { store: u32, id: u64 },
    /// The node waits to be freed.
    Waiting,
    /// The blocks of the range are those of the device from `block` on, each with the sum of its
    /// bytes.
    Extent { block: u32, sums: Checksums },
    /// The blocks of the range are taken.
    Taken,
}

/// A key, and what stands under it.
#[derive(Debug, Drop)]
pub struct Item {
    pub key: Key,
    pub value: Value,
}

/// Items, one after another.
pub type Items = List<Item>;

impl Key {
    /// Whether the key is of the kinds that name nodes: Object or Child.
    pub fn is_name(&self) -> bool
        ensures { result ≡ is_name_key (key_of self.now) }
    {
        match self {
            Key::Object { .. } | Key::Child { .. } => true,
            _ => false,
        }
    }
}

/// The same key in memory of its own. Costs its name's length.
impl Clone for Key {
    ghost is_clone = { λ x y. y ≡ x };

    fn clone(&self) -> Result<Key, AllocError> {
        match self {
            Key::Object { store, id } => Ok(Key::Object {
                store: *store,
                id: *id,
            }),
            Key::Attribute { store, id, name } => {
                let name = name.clone()?;
                Ok(Key::Attribute {
                    store: *store,
                    id: *id,
                    name,
                })
            }
            Key::Extent {
                store,
                id,
                start,
                end,
            } => Ok(Key::Extent {
                store: *store,
                id: *id,
                start: *start,
                end: *end,
            }),
            Key::Child { store, id, name } => {
                let name = name.clone()?;
                Ok(Key::Child {
                    store: *store,
                    id: *id,
                    name,
                })
            }
            Key::Grave { store, id } => Ok(Key::Grave {
                store: *store,
                id: *id,
            }),
            Key::Allocation { start, end } => Ok(Key::Allocation {
                start: *start,
                end: *end,
            }),
        }
    }
}

/// The same value in memory of its own. Costs its bytes.
impl Clone for Value {
    ghost is_clone = { λ x y. y ≡ x };

    fn clone(&self) -> Result<Value, AllocError> {
        match self {
            Value::Gone => Ok(Value::Gone),
            Value::Dir => Ok(Value::Dir),
            Value::File { length } => Ok(Value::File { length: *length }),
            Value::Attribute { text } => {
                let text = text.clone()?;
                Ok(Value::Attribute { text })
            }
            Value::Child { store, id } => Ok(Value::Child {
                store: *store,
                id: *id,
            }),
            Value::Waiting => Ok(Value::Waiting),
            Value::Extent { block, sums } => {
                let sums = sums.copied()?;
                Ok(Value::Extent {
                    block: *block,
                    sums,
                })
            }
            Value::Taken => Ok(Value::Taken),
        }
    }
}

/// The same item in memory of its own. Costs its bytes.
impl Clone for Item {
    ghost is_clone = { λ x y. y ≡ x };

    fn clone(&self) -> Result<Item, AllocError> {
        let key = self.key.clone()?;
        let value = self.value.clone()?;
        Ok(Item { key, value })
    }
}

/// Why bytes could not be read as an item.
#[derive(Debug, Drop, Error)]
pub enum ItemFault {
    /// No prefix of the bytes is an item.
    #[error("not an item")]
    Bad,
    /// There is not enough memory.
    #[error("out of memory")]
    OutOfMemory,
}

impl From<AllocError> for ItemFault {
    ghost use Rattle.std.specs.Prelude.{◌≡◌};
    ghost use Rattle.fx_item.specs.declared.item.ItemFault.TheVariants.{OutOfMemory};

    ghost from_gives = { λ _ e. e ≡ OutOfMemory };

    fn from(_: AllocError) -> ItemFault {
        ItemFault::OutOfMemory
    }
}
