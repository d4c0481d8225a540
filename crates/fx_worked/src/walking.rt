//! The stream of an image.
ghost use Rattle.std.specs.Prelude.{◌≡◌, ◌-◌, ◌+◌, ◌<◌, ◌≤◌, ◌^◌, length, IfOk};
ghost use Rattle.fx_journal.specs.Stream.{IsNext, IsStream, bytes_for};

use fx_base::BLOCK_BYTES;
use fx_item::Bytes;
use fx_jblock::{Fit, HEADER_BYTES, Start, fits};
use fx_journal::{Blocks, Stream, StreamBlock, block_number};
use fx_super::RING_AT;
use std::alloc::{AllocError, Global};

/// The stream in the ring of an image, from the start on: the block at each place is asked whether it
/// is the next one, until one is not or the ring is full.
pub fn stream_in(
    alloc: Global,
    image: &[[u8; BLOCK_BYTES]],
    ring: u32,
    generation: u64,
    start: Start,
) -> Result<Stream, AllocError>
    requires filled { 1 ≤ ring }
    requires room { ring + RING_AT ≤ length image.now }
    requires fits { length image.now < 2 ^ 32 }
    requires begun { start.sequence < 2 ^ 62 }
    ensures { IfOk result (λ s. IsStream image.now ring generation start s.blocks s.next) }
{
    let mut blocks = Vec::new(alloc);
    let mut next = start;
    'walking: while blocks.len() < ring as usize {
        let block = block_for(image, ring, next.sequence);
        let Some((found, after)) = next_block(alloc, block, next, generation)? else {
            break;
        };
        blocks.push(found)?;
        next = after;
    }
    Ok(Stream {
        blocks: Blocks::new(blocks),
        next,
    })
}

/// The block of the ring for this sequence.
fn block_for(image: &[[u8; BLOCK_BYTES]], ring: u32, sequence: u64) -> &[u8; BLOCK_BYTES]
    requires filled { 1 ≤ ring }
    requires room { ring + RING_AT ≤ length image.now }
    requires fits { length image.now < 2 ^ 32 }
    ensures { result.now ≡ bytes_for image.now ring sequence }
{
    &image[block_number(ring, sequence) as usize]
}

/// The block as the one at this place, with the place after it, where it is that one.
fn next_block(
    alloc: Global,
    block: &[u8; BLOCK_BYTES],
    place: Start,
    generation: u64,
) -> Result<Option<(StreamBlock, Start)>, AllocError>
    requires { place.sequence < 2 ^ 64 - 1 }
    ensures { IfOk result (λ found. IsNext block.now generation place found) }
{
    let Fit::Fits { chain, epoch, used } = fits(
        block,
        place.sequence,
        place.floor,
        generation,
        place.chain,
    ) else {
        return Ok(None);
    };
    let records = &block[HEADER_BYTES..HEADER_BYTES + used as usize];
    let records = Bytes::new(Vec::from_slice(alloc, records)?);
    let found = StreamBlock {
        sequence: place.sequence,
        epoch,
        records,
    };
    let after = Start {
        sequence: place.sequence + 1,
        chain,
        floor: epoch,
    };
    Ok(Some((found, after)))
}
