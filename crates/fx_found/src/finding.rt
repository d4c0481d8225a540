//! What a mount finds in an image.
ghost use Rattle.std.specs.Prelude.{◌≡◌, ◌≤◌, ◌<◌, ◌+◌, ◌++◌, ◌*◌, ◌^◌, ℕ, All, List, IfOk, length, take};
ghost use Rattle.fx_item.specs.Item.{items_of};
ghost use Rattle.fx_super.specs.Super.{KeepsRules, fields_of};
ghost use Rattle.fx_journal.specs.declared.stream.StreamBlock.{StreamBlock};
ghost use Rattle.fx_record.specs.Commits.{IsCommit};
ghost use Rattle.fx_record.specs.Txns.{txns_of};
ghost use Rattle.fx_layfile.specs.Layer.{TellsImage};
ghost use Rattle.fx_sound.specs.Image.{AreStanding};
ghost use Rattle.fx_audit.specs.Audited.{plain_image};
ghost use Rattle.fx_found.specs.Found.{FindsImage, IsCheckOf, IsSoundFound, Judges, parts_read};
ghost use Rattle.fx_found.specs.Image.{blocks_of_layers, lists_of_layers, lists_of_txns, numbers_over};
ghost use Rattle.fx_found.specs.Reading.{ReadsAtMost, has_read};

use crate::fault::FindFault;
use crate::journal::{Journal, read_journal};
use crate::keeping::find_kept;
use crate::layers::{LayerVec, read_layers};
use crate::levels::{all_blocks, gather};
use crate::numbers::{NextNumbers, past_layers, past_txns};
use crate::slots::{Slot, find_super};
use crate::standing::standing;
use fx_audit::{Audited, audit};
use fx_disk::Disk;
use fx_item::{BlockList, Items};
use fx_jblock::Start;
use fx_layerset::LayerSet;
use fx_layfile::Layer;
use fx_record::Txns;
use fx_sound::{ImageFault, ImageNumbers};
use fx_super::{Super, Which};
use std::alloc::Global;

/// What an image with contents holds. It is sound.
#[derive(Drop)]
pub struct Found {
    /// The chosen superblock.
    pub sup: Super,
    /// Which of the two blocks it stands in.
    pub slot: Which,
    /// A batch for each transaction that is kept, over the layers of both trees.
    pub set: LayerSet<Layer>,
    /// The blocks of all layers, each once.
    pub layers: BlockList,
    /// What stands: the items of all levels together, in order and without tombstones.
    pub items: Items,
    /// The blocks of the stream.
    pub closed: u32,
    /// The place after them.
    pub next: Start,
    /// Whether transactions lie beyond the number that is kept.
    pub drops: bool,
    /// The numbers that have bounds, that of the last transaction that is kept among them.
    pub numbers: ImageNumbers,
}

/// Finds what an image with contents holds, and that it is sound; or the first fault that holds of it,
/// in the order of `FindFault`. Any image has an answer.
///
/// `Device` comes only where the disk's count of faults rose, and nothing else comes there. The disk
/// is only read, at most twice as many times as it has blocks: the two superblocks, each block of a
/// layer once, each block of the stream once and the one after it, and each block once that a
/// transaction wrote. The time is that of the items and the blocks times a logarithm, and the memory
/// that of the items.
pub fn find<D: Disk>(alloc: Global, disk: &mut D) -> Result<Found, FindFault>
    // Where the disk tells what it holds, what is answered is so.
    ensures found { (image : List (List ℕ)) → TellsImage (D.seen disk.old) image
        → FindsImage (D.seen disk.old).size image result }
    ensures sound { IfOk result (IsSoundFound (D.seen disk.old).size) }
    ensures read { ReadsAtMost (D.seen disk.old) (D.seen disk.new) (2 * (D.seen disk.old).size)
        (has_read result) }
{
    let blocks = disk.blocks();
    let slot = match find_super(disk) {
        Ok(slot) => slot,
        Err(fault) => return Err(fault),
    };
    let (objects, allocs) = match read_layers(alloc, disk, &slot.sup) {
        Ok(layers) => layers,
        Err(fault) => return Err(fault),
    };
    let journal = match read_journal(alloc, disk, &slot.sup) {
        Ok(journal) => journal,
        Err(fault) => return Err(fault),
    };
    let kept = match find_kept(alloc, disk, &slot.sup, &journal.txns) {
        Ok(kept) => kept,
        Err(fault) => return Err(fault),
    };
    match judge(alloc, blocks, slot, objects, allocs, journal, kept) {
        Ok(found) => Ok(found),
        Err(fault) => Err(fault),
    }
}

/// What was read, where it is sound. It takes no call of the disk.
fn judge(
    alloc: Global,
    blocks: u32,
    slot: Slot,
    objects: LayerVec,
    allocs: LayerVec,
    journal: Journal,
    kept: u64,
) -> Result<Found, FindFault>
    requires rules { KeepsRules (fields_of slot.sup) }
    requires commits { All (λ t. IsCommit t.1) (txns_of journal.txns) }
    requires layers { length (blocks_of_layers (objects.items ++ allocs.items)) < 2 ^ 32 }
    requires least { slot.sup.base ≤ kept }
    requires most { kept ≤ slot.sup.base + length journal.txns }
    ensures { (stream : List StreamBlock) → journal.closed ≡ length stream
        → Judges blocks (parts_read slot objects.items allocs.items stream journal kept) result }
{
    let Journal { closed, next, txns } = journal;
    let Ok(layers) = all_blocks(alloc, &objects, &allocs) else {
        return Err(FindFault::OutOfMemory);
    };
    let count = (kept - slot.sup.base) as usize;
    let drops = count < txns.len();
    let txns = first_txns(txns, count);
    let numbers = numbers_of(&slot.sup, kept, &objects, &allocs, txns.as_slice());
    let Ok(set) = gather(alloc, objects, allocs, txns) else {
        return Err(FindFault::OutOfMemory);
    };
    let Ok(items) = standing(alloc, &set) else {
        return Err(FindFault::OutOfMemory);
    };
    let image = Audited {
        disk: blocks,
        ring: slot.sup.ring,
        layers: layers.as_slice(),
        items: items.as_slice(),
        stream: closed,
        drops,
        numbers,
    };
    match check(alloc, &image) {
        Ok(()) => {}
        Err(fault) => return Err(fault),
    }
    Ok(Found {
        sup: slot.sup,
        slot: slot.which,
        set,
        layers,
        items,
        closed,
        next,
        drops,
        numbers,
    })
}

/// The first of these transactions, so many.
fn first_txns(txns: Txns, count: usize) -> Txns
    ensures { txns_of result ≡ take count (txns_of txns) }
{
    let mut txns = txns.into_vec();
    txns.truncate(count);
    Txns::new(txns)
}

/// The numbers that have bounds.
fn numbers_of(
    sup: &Super,
    kept: u64,
    objects: &[Layer],
    allocs: &[Layer],
    txns: &[(u64, Items)],
) -> ImageNumbers
    requires { KeepsRules (fields_of sup.now) }
    ensures { result ≡ numbers_over (fields_of sup.now) kept
        (lists_of_layers objects.now ++ lists_of_layers allocs.now
        ++ lists_of_txns (txns_of txns.now)) }
{
    let next = NextNumbers {
        id: sup.next_id,
        store: sup.next_store,
    };
    let next = past_layers(next, objects);
    let next = past_layers(next, allocs);
    let next = past_txns(next, txns);
    ImageNumbers {
        generation: sup.generation,
        sequence: sup.sequence,
        base: sup.base,
        kept,
        next_id: next.id,
        next_store: next.store,
    }
}

/// Whether the image is sound; else its first fault.
fn check(alloc: Global, image: &Audited) -> Result<(), FindFault>
    requires standing { AreStanding (items_of image.now.items.now) }
    requires items { length image.now.items.now < 2 ^ 32 }
    requires layers { length image.now.layers.now < 2 ^ 32 }
    ensures { IsCheckOf (plain_image image.now) result }
{
    match audit(alloc, image) {
        Err(_) => Err(FindFault::OutOfMemory),
        Ok(Some(ImageFault::BadTree { store, id })) => Err(FindFault::BadTree { store, id }),
        Ok(Some(ImageFault::Unsound(block))) => Err(FindFault::Unsound(block)),
        Ok(Some(ImageFault::Cramped(free))) => Err(FindFault::Cramped(free)),
        Ok(None) => Ok(()),
    }
}
