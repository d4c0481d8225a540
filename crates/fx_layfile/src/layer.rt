//! A layer in memory.
ghost use Rattle.std.specs.Prelude.{◌≡◌};
ghost use Rattle.fx_item.specs.Item.{items_of};
ghost use Rattle.fx_item.specs.Look.{AllApart};

use fx_batch::Batch;
use fx_item::{BlockList, Edge, Item, Items, Key, Level, LookFault};
use std::alloc::Global;
use std::marker::Model;
use thiserror::Error;

/// Why a layer is not read.
#[derive(Clone, Copy, Debug, PartialEq, Eq, Error)]
pub enum LayerFault {
    /// The block is not of the form, lies outside the place of layers, or comes again. It is the
    /// first such, index blocks before data blocks.
    #[error("block {0} is no block of the layer")]
    BadBlock(u32),
    /// The items of this data block are not behind those before them, or not in order. It is the
    /// first such, and no block is bad.
    #[error("the items of block {0} are out of order")]
    Order(u32),
    /// A read of the disk failed. The disk's count of faults rose.
    #[error("the disk failed")]
    Device,
    /// There is not enough memory.
    #[error("out of memory")]
    OutOfMemory,
}

/// A layer with all its items in memory: sorted, each point in one item at most. It is looked up by
/// binary search, and lacks no block.
#[derive(Debug, Drop)]
pub struct Layer {
    blocks: BlockList,
    batch: Batch,
}

impl Model for Layer {
    ghost use Rattle.fx_layfile.specs.Reading.{PlainLayer};

    ghost Value = { PlainLayer };

    ghost view = { λ l. record { blocks = l.blocks; items = l.batch } };
}

impl Layer {
    /// The layer that was just written: its blocks, index blocks first, and the items that a writer
    /// was given, which are in order. It looks at none.
    pub fn of(blocks: BlockList, items: Items) -> Layer
        requires { AllApart (items_of items) }
        ensures blocks { result.blocks ≡ blocks }
        ensures items { result.items ≡ items_of items }
    {
        Layer {
            blocks,
            batch: Batch::of(items),
        }
    }

    /// Its blocks: the index blocks, each before the one that it names, and then the data blocks in
    /// the order of their items.
    pub fn blocks(&self) -> &BlockList
        ensures { result.now ≡ self.now.blocks }
    {
        &self.blocks
    }

    /// Its items, in order.
    pub fn items(&self) -> &[Item]
        ensures { items_of result.now ≡ self.now.items }
    {
        self.batch.as_slice()
    }
}

/// A look costs a binary search, and the copy of the item that is found.
impl Level for Layer {
    ghost items = { λ l. l.items };

    ghost use Rattle.std.specs.Prelude.{[]};

    ghost lacks = { λ l. [] };

    fn next(&self, alloc: Global, edge: Edge, key: &Key) -> Result<Option<Item>, LookFault> {
        self.batch.next(alloc, edge, key)
    }
}
