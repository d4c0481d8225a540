//! Reading the stream from a disk.
ghost use Rattle.std.specs.Prelude.{◌≡◌, ◌≢◌, ◌+◌, ◌-◌, ◌<◌, ◌≤◌, ◌^◌, min, [], ◌∷◌, ◌++◌, length, IfOk, OnOk, IsErrOf, Err};
ghost use Rattle.std.specs.Option.{IfSome};
ghost use Rattle.fx_base.specs.Causes.{Rose};
ghost use Rattle.fx_disk.specs.Seen.{HasOnlyRead};
ghost use Rattle.fx_journal.specs.Stream.{IsStream, MayBeStream, IsNext};

use crate::place::block_number;
use crate::stream::{Blocks, Stream, StreamBlock, WalkFault};
use fx_base::BLOCK_BYTES;
use fx_disk::Disk;
use fx_item::Bytes;
use fx_jblock::{Fit, HEADER_BYTES, Start, fits};
use fx_super::RING_AT;
use std::alloc::{AllocError, Global};

/// Reads the stream from the start on: the longest list of at most `ring` blocks that continue each
/// other, from the block of the start's sequence on. The ring is the disk's blocks 2 to `ring + 1`.
///
/// `Device` comes only where the disk's count of faults rose, and nothing else comes there. The
/// disk is only read: each block of the stream once, and the one after it where the ring has it. It
/// takes the memory of the record bytes, and the time of one pass over the blocks that are read.
pub fn walk<D: Disk>(
    alloc: Global,
    disk: &mut D,
    start: Start,
    ring: u32,
    generation: u64,
) -> Result<Stream, WalkFault>
    requires filled { 1 ≤ ring }
    requires room { ring + RING_AT ≤ (D.seen disk.old).size }
    requires begun { start.sequence < 2 ^ 62 }
    // Where the disk tells what it holds, this is its stream.
    ensures stream { IfOk result (λ s. IfSome (D.seen disk.old).told (λ r.
        IsStream r.contents ring generation start s.blocks s.next)) }

    // Whether it tells or not, the blocks follow each other from the start to the next place.
    ensures read { IfOk result (λ s. MayBeStream ring generation start s.blocks s.next) }

    // The blocks of the stream are read once, and the one after it unless the ring is full.
    ensures reads { IfOk result (λ s.
        (D.seen disk.new).reads ≡ (D.seen disk.old).reads + min (length s.blocks + 1) ring) }
    ensures most_reads { (D.seen disk.new).reads ≤ (D.seen disk.old).reads + ring }
    ensures device { IsErrOf result WalkFault.Device
        → Rose (D.seen disk.old).faults (D.seen disk.new).faults }
    ensures unfailed { result ≢ Err WalkFault.Device
        → (D.seen disk.new).faults ≡ (D.seen disk.old).faults }
    ensures disk { HasOnlyRead (D.seen disk.old) (D.seen disk.new) }
{
    let mut items = Vec::new(alloc);
    let mut next = start;
    let mut block = [0u8; BLOCK_BYTES];
    'reading: while items.len() < ring as usize {
        let Ok(()) = disk.read(block_number(ring, next.sequence), &mut block) else {
            return Err(WalkFault::Device);
        };
        let Ok(found) = take_block(alloc, &block, next, generation) else {
            return Err(WalkFault::OutOfMemory);
        };
        let Some((found, after)) = found else {
            break;
        };
        let Ok(()) = keep(&mut items, found) else {
            return Err(WalkFault::OutOfMemory);
        };
        next = after;
    }
    Ok(Stream {
        blocks: Blocks::new(items),
        next,
    })
}

fn keep(items: &mut Vec<StreamBlock>, block: StreamBlock) -> Result<(), AllocError>
    ensures { OnOk result (items.new.items ≡ items.old.items ++ block ∷ []) }
{
    items.push(block)?;
    Ok(())
}

/// The block as the one at this place of the stream, with the place after it, where it is that one.
fn take_block(
    alloc: Global,
    block: &[u8; BLOCK_BYTES],
    place: Start,
    generation: u64,
) -> Result<Option<(StreamBlock, Start)>, AllocError>
    requires { place.sequence < 2 ^ 64 - 1 }
    ensures { IfOk result (λ o. IsNext block.now generation place o) }
{
    match fits(block, place.sequence, place.floor, generation, place.chain) {
        Fit::Fits { chain, epoch, used } => {
            let records = &block[HEADER_BYTES..HEADER_BYTES + used as usize];
            let found = StreamBlock {
                sequence: place.sequence,
                epoch,
                records: Bytes::new(Vec::from_slice(alloc, records)?),
            };
            let after = Start {
                sequence: place.sequence + 1,
                chain,
                floor: epoch,
            };
            Ok(Some((found, after)))
        }
        Fit::Torn | Fit::Stale => Ok(None),
    }
}
