//! Blocks of a layer from bytes.
ghost use Rattle.std.specs.Prelude.{◌≡◌, ◌≤◌, ◌*◌, ◌<◌, ◌^◌, ℕ, length, slice_index, MatchResult, Ok, Err, IfOk};
ghost use Rattle.fx_item.specs.Item.{item_of, items_of, key_of};
ghost use Rattle.fx_layfile.specs.Block.{tree_of_key, names_bytes};
ghost use Rattle.fx_layfile.specs.Decoding.{IndexDecoded, DataDecoded, ItemsDecoded, ItemDecoded};

use crate::block::{DATA_MAGIC, INDEX_MAGIC, INDEX_NAMES, ROOM_BYTES, open_block};
use byteorder::{ByteOrder, LittleEndian};
use fx_base::{BLOCK_BYTES, is_zero};
use fx_item::{BlockList, Item, ItemFault, Key, decode};
use std::alloc::{AllocError, Global};

/// The next index block and the data blocks that an index block of this tree names; `Bad` exactly
/// where the block is none. It takes the memory of the names, and one pass over the block.
pub(crate) fn decode_index(
    alloc: Global,
    block: &[u8; BLOCK_BYTES],
    tree: u32,
) -> Result<(u32, BlockList), ItemFault>
    ensures { IndexDecoded block.now tree result }
{
    let Some((next, count, owner, raw)) = open_block(block, INDEX_MAGIC) else {
        return Err(ItemFault::Bad);
    };
    let count = count as usize;
    if owner != tree || count == 0 || INDEX_NAMES < count {
        return Err(ItemFault::Bad);
    }
    let (text, zeros) = raw.split_at(4 * count);
    if !is_zero(zeros) {
        return Err(ItemFault::Bad);
    }
    let names = names_in(alloc, count, text)?;
    Ok((next, names))
}

/// The numbers that stand in the bytes.
fn names_in(alloc: Global, count: usize, text: &[u8]) -> Result<BlockList, AllocError>
    requires { length text.now ≡ 4 * count }
    ensures bytes { IfOk result (λ names. names_bytes names ≡ text.now) }
    ensures fits { IfOk result (λ names. (i : ℕ) → slice_index names i < 2 ^ 32) }
{
    let mut names = vec![in alloc; 0; count]?;
    read_names(text, &mut names);
    Ok(BlockList::new(names))
}

/// Sets the numbers to those that stand in the bytes.
fn read_names(text: &[u8], names: &mut [u32])
    requires { length text.now ≡ 4 * length names.old }
    ensures bytes { names_bytes names.new ≡ text.now }
    ensures fits { (i : ℕ) → slice_index names.new i < 2 ^ 32 }
{
    LittleEndian::read_u32_into(text, names);
}

/// Appends the items of a data block of this tree; `Bad` exactly where the block is none. It takes
/// the memory of the items, and one pass over the block.
pub(crate) fn decode_data(
    alloc: Global,
    block: &[u8; BLOCK_BYTES],
    tree: u32,
    items: &mut Vec<Item>,
) -> Result<(), ItemFault>
    ensures { DataDecoded block.now tree (items_of items.old.items) (items_of items.new.items)
        result }
{
    let Some((count, used, zero, raw)) = open_block(block, DATA_MAGIC) else {
        return Err(ItemFault::Bad);
    };
    let used = used as usize;
    if zero != 0 || count == 0 || ROOM_BYTES < used {
        return Err(ItemFault::Bad);
    }
    let (text, zeros) = raw.split_at(used);
    if !is_zero(zeros) {
        return Err(ItemFault::Bad);
    }
    take_items(alloc, count, tree, text, items)
}

/// Appends the items that these bytes are; `Bad` exactly where they are not so many of the tree.
fn take_items(
    alloc: Global,
    count: u32,
    tree: u32,
    bytes: &[u8],
    items: &mut Vec<Item>,
) -> Result<(), ItemFault>
    ensures { ItemsDecoded tree count bytes.now (items_of items.old.items)
        (items_of items.new.items) result }
{
    let mut rest = bytes;
    for _place in 0..count {
        match take_item(alloc, tree, rest, items) {
            Ok(left) => rest = left,
            Err(fault) => return Err(fault),
        }
    }
    if !rest.is_empty() {
        return Err(ItemFault::Bad);
    }
    Ok(())
}

/// Appends the item at the front of the bytes, and gives the bytes after it; `Bad` exactly where no
/// item of the tree stands there.
fn take_item<'a>(
    alloc: Global,
    tree: u32,
    bytes: &'a [u8],
    items: &mut Vec<Item>,
) -> Result<&'a [u8], ItemFault>
    ensures { ItemDecoded tree bytes.now (items_of items.old.items) (items_of items.new.items)
        result }
{
    let (item, len) = match decode(alloc, bytes) {
        Ok(found) => found,
        Err(fault) => return Err(fault),
    };
    if tree_of(&item.key) != tree {
        return Err(ItemFault::Bad);
    }
    let Ok(()) = items.push(item) else {
        return Err(ItemFault::OutOfMemory);
    };
    let (_, rest) = bytes.split_at(len);
    Ok(rest)
}

/// The tree that a key belongs to: 1 that of the objects, 2 that of the allocator.
pub(crate) fn tree_of(key: &Key) -> u32
    ensures { result ≡ tree_of_key (key_of key.now) }
{
    match key {
        Key::Allocation { .. } => 2,
        _ => 1,
    }
}
