//! The items that say where blocks of a file lie.
ghost use Rattle.std.specs.Prelude.{◌≡◌, ◌↔◌, ◌+◌, ◌^◌, ◌<◌, ◌≤◌, length, map, option_map, All, IfOk, IfSome, OnOk, IsTrue};
ghost use Rattle.fx_item.specs.Item.{IsItem, item_of, items_of};
ghost use Rattle.fx_item.specs.declared.item.TheConstants.{MAX_DEVICE_BLOCKS, MAX_EXTENT_BLOCKS, MAX_FILE_BLOCKS};
ghost use Rattle.fx_contents.specs.Files.{blocks_for};
ghost use Rattle.fx_extent.specs.Listed.{gone_item};
ghost use Rattle.fx_plain.specs.declared.contents.TheConstants.{MAX_FILE};
ghost use Rattle.fx_extent.specs.Staged.{AreExtentsOf, AreInPlaces, IsLongestRun, nth_block, run_item};

use fx_base::{BLOCK_BYTES, List};
use fx_item::{Checksums, Item, Items, Key, LockKey, MAX_EXTENT_BLOCKS, Value};
use fx_plain::MAX_FILE;
use std::alloc::{AllocError, Global};

/// A new block of a file: its place in the file, its block of the device, and the sum of its bytes.
#[derive(Clone, Copy, Debug, PartialEq, Eq)]
pub struct NewBlock {
    pub index: u32,
    pub block: u32,
    pub sum: u64,
}

/// New blocks, in the order of their places.
pub type Staged = List<NewBlock>;

/// The items that say that the new blocks lie where they do, in order. Blocks that follow each other in
/// the file and on the device are joined, at most 32 in an item. Costs the blocks.
pub fn extents(alloc: Global, at: LockKey, written: &[NewBlock]) -> Result<Items, AllocError>
    requires { AreInPlaces 0 written.now }
    ensures { IfOk result (λ items. AreExtentsOf at written.now (items_of items)) }
{
    let mut items = Vec::new(alloc);
    let mut rest = written;
    'runs: while !rest.is_empty() {
        let (run, after) = rest.split_at(run_length(rest));
        items.push(extent(alloc, at, run)?)?;
        rest = after;
    }
    Ok(Items::new(items))
}

/// The item that says that the places of a file from one size on, up to another, have no block any more;
/// none where no block begins between them.
pub fn taken_away(at: LockKey, size: usize, len: usize) -> Option<Item>
    requires { len ≤ MAX_FILE }
    ensures item { option_map item_of result ≡ gone_item at (blocks_for size) (blocks_for len) }
    ensures good { IfSome result (λ item. IsItem (item_of item)) }
{
    let from = size.div_ceil(BLOCK_BYTES);
    let to = len.div_ceil(BLOCK_BYTES);
    if from >= to {
        return None;
    }
    Some(Item {
        key: Key::Extent {
            store: at.store,
            id: at.id,
            start: from as u32,
            end: to as u32,
        },
        value: Value::Gone,
    })
}

/// How many of the first blocks follow each other, at most 32.
fn run_length(blocks: &[NewBlock]) -> usize
    requires some { 0 < length blocks.now }
    requires rising { AreInPlaces 0 blocks.now }
    ensures { IsLongestRun blocks.now result }
{
    let first = blocks[0];
    let mut count = 1;
    'blocks: while count < MAX_EXTENT_BLOCKS && count < blocks.len() {
        if !is_behind(first, blocks[count], count as u32) {
            return count;
        }
        count += 1;
    }
    count
}

/// Whether a block lies so many places behind the first one, in the file and on the device.
fn is_behind(first: NewBlock, block: NewBlock, places: u32) -> bool
    requires file { first.index < MAX_FILE_BLOCKS }
    requires device { first.block < MAX_DEVICE_BLOCKS }
    requires few { places < MAX_EXTENT_BLOCKS }
    ensures { IsTrue result
        ↔ (block.index ≡ first.index + places) × (block.block ≡ first.block + places) }
{
    block.index == first.index + places && block.block == first.block + places
}

/// The extent of blocks that follow each other.
fn extent(alloc: Global, at: LockKey, run: &[NewBlock]) -> Result<Item, AllocError>
    requires some { 0 < length run.now }
    requires most { length run.now ≤ MAX_EXTENT_BLOCKS }
    requires file { (nth_block run.now 0).index + length run.now ≤ MAX_FILE_BLOCKS }
    requires device { (nth_block run.now 0).block + length run.now ≤ MAX_DEVICE_BLOCKS }
    ensures item { IfOk result (λ item. item_of item ≡ run_item at run.now) }
    ensures good { OnOk result (IsItem (run_item at run.now)) }
{
    let first = run[0];
    let sums = sums_of(alloc, run)?;
    Ok(Item {
        key: Key::Extent {
            store: at.store,
            id: at.id,
            start: first.index,
            end: first.index + run.len() as u32,
        },
        value: Value::Extent {
            block: first.block,
            sums: Checksums::new(sums),
        },
    })
}

/// The sums of blocks.
fn sums_of(alloc: Global, run: &[NewBlock]) -> Result<Vec<u64>, AllocError>
    ensures sums { IfOk result (λ sums. sums.items ≡ map (λ x. x.sum) run.now) }
    ensures wide { IfOk result (λ sums. All (λ sum. sum < 2 ^ 64) sums.items) }
{
    let sums: Vec<u64> = run.iter().map(|block| block.sum).collect(alloc)?;
    are_wide(&sums);
    Ok(sums)
}

/// The sums are what their type allows.
fn are_wide(sums: &[u64])
    ensures { All (λ sum. sum < 2 ^ 64) sums.now }
{}
