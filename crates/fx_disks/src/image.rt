//! The bytes of a whole disk.
ghost use Rattle.std.specs.Prelude.{◌≡◌, ◌<◌, ℕ, length, slice_index_or};
ghost use Rattle.fx_disk.specs.Record.{IsBlock};
ghost use Rattle.fx_disks.specs.Blocks.{AreBlocks};

use fx_base::BLOCK_BYTES;
use std::marker::Model;

/// The blocks of a disk, in order.
#[derive(Drop)]
pub struct Image {
    blocks: Vec<[u8; BLOCK_BYTES]>,
}

impl Model for Image {
    ghost use Rattle.std.specs.Prelude.{ℕ, List};
    ghost use Rattle.fx_disks.specs.Blocks.{AreBlocks};

    ghost Value = { List (List ℕ) };

    ghost view = { λ i. i.blocks.items };

    ghost invariant = { λ i. AreBlocks i.blocks.items };
}

// Bytes are below 256, by their type. This and the next two are for the proof alone and do nothing.
fn are_bytes(bytes: &[u8])
    ensures { (i : ℕ) → i < length bytes.now → slice_index_or bytes.now i 0 < 256 }
{
    let _len = bytes.len();
}

fn is_block(block: &[u8; BLOCK_BYTES])
    ensures { IsBlock block.now }
{
    are_bytes(&block[..]);
}

fn are_blocks(blocks: &[[u8; BLOCK_BYTES]])
    ensures { AreBlocks blocks.now }
{
    for block in blocks {
        is_block(block);
    }
}

impl Image {
    /// Takes the blocks over, and no memory.
    pub fn from_blocks(blocks: Vec<[u8; BLOCK_BYTES]>) -> Image
        ensures { result ≡ blocks.items }
    {
        are_blocks(&blocks);
        Image { blocks }
    }

    /// The blocks, in order.
    pub fn blocks(&self) -> &[[u8; BLOCK_BYTES]]
        ensures value { result.now ≡ self.now }
        ensures blocks { AreBlocks self.now }
    {
        self.blocks.as_slice()
    }

    /// Gives the blocks back, and takes no memory.
    pub fn into_blocks(self) -> Vec<[u8; BLOCK_BYTES]>
        ensures value { result.items ≡ self }
        ensures blocks { AreBlocks self }
    {
        self.blocks
    }
}
