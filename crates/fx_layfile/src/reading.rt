//! Layers from a disk.
ghost use Rattle.std.specs.Prelude.{◌≡◌, ◌≢◌, ◌≤◌, ◌++◌, ◌<◌, ◌^◌, ◌+◌, [], ◌∷◌, ℕ, List, All, IfErr, IfOk, OnOk, is_ok, None, true, length, take};
ghost use Rattle.fx_item.specs.Item.{PlainItem, items_of};
ghost use Rattle.fx_item.specs.Order.{is_ascending};
ghost use Rattle.fx_layfile.specs.Block.{IsOfTree};
ghost use Rattle.fx_layfile.specs.Layer.{IsUnmarked, AreUnmarked, mark_block, mark_blocks, blocks_in, Verdict, IsVerdict, TellsImage, ReadsMarked};
ghost use Rattle.fx_layfile.specs.Reading.{is_read, Fetched, LeadsOn, IndexFound, GathersOn, DataFound, noted, IsClaimed, IsSaid, LeavesMarks, GivesVerdict};

use crate::decoding::{decode_data, decode_index};
use crate::layer::{Layer, LayerFault};
use crate::marks::BlockSet;
use fx_base::BLOCK_BYTES;
use fx_disk::Disk;
use fx_item::{BlockList, Item, ItemFault, Items};
use std::alloc::{AllocError, Global};

/// Reads the layer of a tree, 1 that of the objects, 2 that of the allocator, that begins with this
/// index block. The ring is the disk's blocks 2 to `ring + 1`. `taken` is of this disk's size, and
/// has the marks of the blocks that were read before. No mark is cleared, and there are at most as
/// many reads as marks that are gained, whatever the disk holds. After `BadBlock` or `Order` the marks
/// are the old ones, those of the layer's good blocks up to there, and that of the bad block if it was
/// unmarked.
///
/// `Device` comes only where the disk's count of faults rose, and nothing else comes there. It
/// takes the memory of the items, and one pass over the blocks.
pub fn read_layer<D: Disk>(
    alloc: Global,
    disk: &mut D,
    ring: u32,
    first: u32,
    tree: u32,
    taken: &mut BlockSet,
) -> Result<Layer, LayerFault>
    requires sized { length taken.old ≡ (D.seen disk.old).size }
    // Where the disk tells what it holds, what is answered is so.
    ensures said { (image : List (List ℕ)) → TellsImage (D.seen disk.old) image
        → IsSaid (blocks_in image) ring taken.old tree first result }
    // And what is so is answered.
    ensures exact { (image : List (List ℕ)) (verdict : Verdict)
        → TellsImage (D.seen disk.old) image
        → IsVerdict (blocks_in image) ring taken.old tree first verdict
        → GivesVerdict result verdict }
    ensures blocks { IfOk result (λ layer. AreUnmarked ring taken.old layer.blocks
        × (taken.new ≡ mark_blocks taken.old layer.blocks)) }
    ensures of_tree { IfOk result (λ layer. All (IsOfTree tree) layer.items) }
    ensures left { (image : List (List ℕ)) → TellsImage (D.seen disk.old) image
        → IfErr result (LeavesMarks (blocks_in image) ring taken.old taken.new tree first) }
    ensures marked { ReadsMarked (D.seen disk.old) (D.seen disk.new) taken.old taken.new
        (is_read result) }
{
    let (places, names) = match read_index(alloc, disk, ring, first, tree, taken) {
        Ok(found) => found,
        Err(fault) => return Err(fault),
    };
    let (items, disorder) = match read_data(alloc, disk, ring, tree, names.as_slice(), taken) {
        Ok(found) => found,
        Err(fault) => return Err(fault),
    };
    match disorder {
        Some(at) => return Err(LayerFault::Order(at)),
        None => {}
    }
    let Ok(blocks) = joined(places, &names) else {
        return Err(LayerFault::OutOfMemory);
    };
    Ok(Layer::of(blocks, items))
}

/// One list behind the other.
fn joined(places: BlockList, names: &BlockList) -> Result<BlockList, AllocError>
    ensures { IfOk result (λ blocks. blocks ≡ places ++ names.now) }
{
    let mut blocks = places.into_vec();
    blocks.extend_from_slice(names.as_slice())?;
    Ok(BlockList::new(blocks))
}

/// Reads a block that may be read, and sets its mark.
fn fetch<D: Disk>(
    disk: &mut D,
    ring: u32,
    at: u32,
    taken: &mut BlockSet,
    block: &mut [u8; BLOCK_BYTES],
) -> Result<(), LayerFault>
    requires sized { length taken.old ≡ (D.seen disk.old).size }
    ensures fetched { Fetched ring taken.old at taken.new result }
    ensures tried { IsClaimed ring taken.old at taken.new }
    ensures bytes { OnOk result ((image : List (List ℕ)) → TellsImage (D.seen disk.old) image
        → block.new ≡ blocks_in image at) }
    ensures marked { ReadsMarked (D.seen disk.old) (D.seen disk.new) taken.old taken.new
        (is_read result) }
{
    if !taken.claim(ring, at) {
        return Err(LayerFault::BadBlock(at));
    }
    let Ok(()) = disk.read(at, block) else {
        return Err(LayerFault::Device);
    };
    Ok(())
}

/// The index blocks from the first to the last one, and all data blocks that they name.
fn read_index<D: Disk>(
    alloc: Global,
    disk: &mut D,
    ring: u32,
    first: u32,
    tree: u32,
    taken: &mut BlockSet,
) -> Result<(BlockList, BlockList), LayerFault>
    requires sized { length taken.old ≡ (D.seen disk.old).size }
    ensures places { IfOk result (λ r. AreUnmarked ring taken.old r.0
        × (taken.new ≡ mark_blocks taken.old r.0) × (1 ≤ length r.0)) }
    ensures found { (image : List (List ℕ)) → TellsImage (D.seen disk.old) image
        → IndexFound (blocks_in image) ring taken.old taken.new tree first result }
    ensures marked { ReadsMarked (D.seen disk.old) (D.seen disk.new) taken.old taken.new
        (is_read result) }
{
    let mut places = Vec::new(alloc);
    let mut names = Vec::new(alloc);
    let mut block = [0; BLOCK_BYTES];
    let mut at = first;
    'chain: loop {
        let next = match read_names_at(alloc, disk, ring, at, tree, taken, &mut block, &mut names) {
            Ok(next) => next,
            Err(fault) => return Err(fault),
        };
        let Ok(()) = places.push(at) else {
            return Err(LayerFault::OutOfMemory);
        };
        if next == 0 {
            return Ok((BlockList::new(places), BlockList::new(names)));
        }
        at = next;
    }
}

/// Reads an index block, appends the data blocks that it names, and gives the next index block.
fn read_names_at<D: Disk>(
    alloc: Global,
    disk: &mut D,
    ring: u32,
    at: u32,
    tree: u32,
    taken: &mut BlockSet,
    block: &mut [u8; BLOCK_BYTES],
    names: &mut Vec<u32>,
) -> Result<u32, LayerFault>
    requires sized { length taken.old ≡ (D.seen disk.old).size }
    ensures claimed { OnOk result (IsUnmarked ring taken.old at
        × (taken.new ≡ mark_block taken.old at)) }
    ensures tried { IsClaimed ring taken.old at taken.new }
    ensures found { (image : List (List ℕ)) → TellsImage (D.seen disk.old) image
        → LeadsOn (blocks_in image) ring taken.old tree at names.old.items names.new.items result }
    ensures marked { ReadsMarked (D.seen disk.old) (D.seen disk.new) taken.old taken.new
        (is_read result) }
{
    if let Err(fault) = fetch(disk, ring, at, taken, block) {
        return Err(fault);
    }
    let (next, found) = match decode_index(alloc, block, tree) {
        Ok(found) => found,
        Err(ItemFault::Bad) => return Err(LayerFault::BadBlock(at)),
        Err(ItemFault::OutOfMemory) => return Err(LayerFault::OutOfMemory),
    };
    let Ok(()) = names.extend_from_slice(found.as_slice()) else {
        return Err(LayerFault::OutOfMemory);
    };
    Ok(next)
}

/// The items of the data blocks of these names, and the first block with which they are no longer
/// in order.
fn read_data<D: Disk>(
    alloc: Global,
    disk: &mut D,
    ring: u32,
    tree: u32,
    names: &[u32],
    taken: &mut BlockSet,
) -> Result<(Items, Option<u32>), LayerFault>
    requires sized { length taken.old ≡ (D.seen disk.old).size }
    ensures places { OnOk result (AreUnmarked ring taken.old names.now
        × (taken.new ≡ mark_blocks taken.old names.now)) }
    ensures order { IfOk result (λ r. All (IsOfTree tree) (items_of r.0)
        × (r.1 ≡ None → is_ascending (items_of r.0) ≡ true)) }
    ensures found { (image : List (List ℕ)) → TellsImage (D.seen disk.old) image
        → DataFound (blocks_in image) ring taken.old taken.new tree names.now result }
    ensures marked { ReadsMarked (D.seen disk.old) (D.seen disk.new) taken.old taken.new
        (is_read result) }
{
    let mut items = Vec::new(alloc);
    let mut disorder = None;
    let mut block = [0; BLOCK_BYTES];
    for at in names {
        let from = items.len();
        let read = read_items_at(alloc, disk, ring, *at, tree, taken, &mut block, &mut items);
        if let Err(fault) = read {
            return Err(fault);
        }
        disorder = note_order(items.as_slice(), from, *at, disorder);
    }
    Ok((Items::new(items), disorder))
}

/// Reads a data block, and appends its items.
fn read_items_at<D: Disk>(
    alloc: Global,
    disk: &mut D,
    ring: u32,
    at: u32,
    tree: u32,
    taken: &mut BlockSet,
    block: &mut [u8; BLOCK_BYTES],
    items: &mut Vec<Item>,
) -> Result<(), LayerFault>
    requires sized { length taken.old ≡ (D.seen disk.old).size }
    ensures claimed { OnOk result (IsUnmarked ring taken.old at
        × (taken.new ≡ mark_block taken.old at)) }
    ensures tried { IsClaimed ring taken.old at taken.new }
    ensures good { OnOk result ((more : List PlainItem)
        × (items_of items.new.items ≡ items_of items.old.items ++ more)
        × All (IsOfTree tree) more) }
    ensures found { (image : List (List ℕ)) → TellsImage (D.seen disk.old) image
        → GathersOn (blocks_in image) ring taken.old tree at (items_of items.old.items)
        (items_of items.new.items) result }
    ensures marked { ReadsMarked (D.seen disk.old) (D.seen disk.new) taken.old taken.new
        (is_read result) }
{
    if let Err(fault) = fetch(disk, ring, at, taken, block) {
        return Err(fault);
    }
    match decode_data(alloc, block, tree, items) {
        Ok(()) => Ok(()),
        Err(ItemFault::Bad) => Err(LayerFault::BadBlock(at)),
        Err(ItemFault::OutOfMemory) => Err(LayerFault::OutOfMemory),
    }
}

/// The first block with which the order ended, where the items from `from` on are those of `at`.
fn note_order(items: &[Item], from: usize, at: u32, disorder: Option<u32>) -> Option<u32>
    requires { disorder ≡ None → is_ascending (items_of (take from items.now)) ≡ true }
    ensures { result ≡ noted disorder (is_ascending (items_of items.now)) at }
{
    if disorder.is_some() {
        return disorder;
    }
    if ascends_from(items, from) {
        return None;
    }
    Some(at)
}

/// Whether items are in order, of which the first ones are.
fn ascends_from(items: &[Item], from: usize) -> bool
    requires { is_ascending (items_of (take from items.now)) ≡ true }
    ensures { result ≡ is_ascending (items_of items.now) }
{
    for i in from.max(1)..items.len() {
        if !items[i - 1].key.may_precede(&items[i].key) {
            return false;
        }
    }
    true
}
