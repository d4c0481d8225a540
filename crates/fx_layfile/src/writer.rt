//! Layers to blocks.
ghost use Rattle.std.specs.Prelude.{◌≡◌, ◌<◌, ◌≤◌, ◌++◌, ◌^◌, ℕ, length, drop, slice_index, ◌∷◌, [], ◌==◌, List, None, Some, Option, IfOk, OnErr, option_to_list, if◌then◌else◌};
ghost use Rattle.fx_item.specs.Item.{PlainItem, item_of};
ghost use Rattle.fx_layfile.specs.Block.{IsOfTree, layer_block, padded_text, index_bytes};
ghost use Rattle.fx_layfile.specs.declared.block.Block.{Block as PlainBlock};
ghost use Rattle.fx_layfile.specs.Writing.{WriterState, new_writer, with_item, block_for_item, with_block, next_block_of, first_named, IsOpen, HasWrittenLayer};

use crate::block::{Block, DATA_MAGIC, INDEX_NAMES, ROOM_BYTES, write_data, write_index};
use fx_base::zero_block;
use fx_item::{Item, encode, encoded_len};
use std::alloc::{AllocError, Global};
use std::marker::Model;

/// Puts the items of a tree into blocks, in the order in which they are added. Data blocks are given
/// as they fill, each as far as the items fit, and then the index blocks, the last one first. It
/// keeps one block of items, and the numbers of the data blocks.
#[derive(Debug, Drop)]
pub struct LayerWriter {
    tree: u32,
    next: u32,
    count: u32,
    text: Vec<u8>,
    waiting: Vec<u32>,
}

impl Model for LayerWriter {
    ghost use Rattle.std.specs.Prelude.{length, ◌≤◌};
    ghost use Rattle.fx_layfile.specs.Writing.{WriterState};
    ghost use Rattle.fx_layfile.specs.declared.block.TheConstants.{ROOM_BYTES};

    ghost Value = { WriterState };

    ghost view = { λ w. record {
      tree = w.tree;
      next = w.next;
      count = w.count;
      text = w.text.items;
      waiting = w.waiting.items;
    } };

    ghost invariant = { λ w. (w.count ≤ length w.text.items) × (length w.text.items ≤ ROOM_BYTES) };
}

impl LayerWriter {
    /// A writer of the layer of a tree: 1 that of the objects, 2 that of the allocator.
    pub fn new(alloc: Global, tree: u32) -> LayerWriter
        ensures { result ≡ new_writer tree }
    {
        LayerWriter {
            tree,
            next: 0,
            count: 0,
            text: Vec::new(alloc),
            waiting: Vec::new(alloc),
        }
    }

    /// Adds an item of the tree. Where it does not fit the block that is being filled, it gives that
    /// block for the place `at`, and begins the next one; else it gives none, and `at` is not used.
    /// After an error all is as before. Costs the item's bytes, and a pass over a block that is given.
    pub fn add(&mut self, item: &Item, at: u32) -> Result<Option<Block>, AllocError>
        requires good { IsOfTree self.old.tree (item_of item.now) }
        requires open { IsOpen self.old }
        ensures added { IfOk result (λ given. (self.new ≡ with_item self.old (item_of item.now) at)
            × (given ≡ block_for_item self.old (item_of item.now) at)) }
        ensures refused { OnErr result (self.new ≡ self.old) }
        ensures open { IsOpen self.new }
        ensures tree { self.new.tree ≡ self.old.tree }
        ensures written { IfOk result (λ given. (items : List PlainItem) (before : List PlainBlock)
            → HasWrittenLayer self.old items before
            → HasWrittenLayer self.new (items ++ item_of item.now ∷ [])
            (before ++ option_to_list given)) }
    {
        if self.text.len() + encoded_len(item) <= ROOM_BYTES {
            encode(item, &mut self.text)?;
            self.count += 1;
            return Ok(None);
        }
        let mut text = Vec::new(*self.text.allocator());
        encode(item, &mut text)?;
        self.waiting.push(at)?;
        let given = data_block(self.count, &self.text, at);
        self.text = text;
        self.count = 1;
        Ok(Some(given))
    }

    /// Gives the next block that is left, for the place `at`: the last data block first, and then the
    /// index blocks from the last one to the first. At the end it gives none, and `at` is not used.
    /// After an error all is as before. One pass over the block.
    pub fn finish(&mut self, at: u32) -> Result<Option<Block>, AllocError>
        requires named { 0 < at }
        ensures next { IfOk result (λ given. (self.new ≡ with_block self.old at)
            × (given ≡ next_block_of self.old at)) }
        ensures refused { OnErr result (self.new ≡ self.old) }
        ensures written { IfOk result (λ given. (items : List PlainItem) (before : List PlainBlock)
            → HasWrittenLayer self.old items before
            → HasWrittenLayer self.new items (before ++ option_to_list given)) }
        ensures tree { self.new.tree ≡ self.old.tree }
    {
        if self.count > 0 {
            self.waiting.push(at)?;
            let given = data_block(self.count, &self.text, at);
            self.text.clear();
            self.count = 0;
            return Ok(Some(given));
        }
        if self.waiting.len() > 0 {
            let given = index_block(self.tree, self.next, &self.waiting, at);
            let left = self.waiting.len().saturating_sub(INDEX_NAMES);
            self.waiting.truncate(left);
            self.next = at;
            return Ok(Some(given));
        }
        Ok(None)
    }

    /// The index block that was given last. Once all blocks are given it is the one that begins the
    /// layer; a layer without items has none.
    pub fn first(&self) -> Option<u32>
        ensures { result ≡ (if self.now.next == 0 then None else Some self.now.next) }
    {
        if self.next == 0 {
            return None;
        }
        Some(self.next)
    }
}

/// The data block of `count` items that are these bytes.
fn data_block(count: u32, text: &[u8], at: u32) -> Block
    requires { length text.now ≤ ROOM_BYTES }
    ensures { result ≡ record {
      at = at;
      bytes = layer_block DATA_MAGIC count (length text.now) 0 (padded_text text.now);
    } }
{
    let mut bytes = zero_block();
    write_data(count, text, &mut bytes);
    Block { at, bytes }
}

/// The index block of the last of these data blocks, as many as it can name.
fn index_block(tree: u32, next: u32, waiting: &[u32], at: u32) -> Block
    ensures block { result ≡ record {
      at = at;
      bytes = index_bytes tree next (drop (first_named waiting.now) waiting.now);
    } }
    ensures fits { (i : ℕ) → slice_index (drop (first_named waiting.now) waiting.now) i < 2 ^ 32 }
{
    let (_, names) = waiting.split_at(waiting.len().saturating_sub(INDEX_NAMES));
    let mut bytes = zero_block();
    write_index(tree, next, names, &mut bytes);
    Block { at, bytes }
}
