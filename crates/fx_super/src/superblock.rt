ghost use Rattle.std.specs.Prelude.{◌≡◌, ◌≤◌, ◌<◌, ◌+◌, ◌*◌, ◌^◌, ◌↔◌, IsTrue, All, length};
ghost use Rattle.fx_super.specs.Super.{Fields, KeepsRules, IsLayer, HasSizes, HasCounters, fields_of, first_fields};

use crate::layers::{LAYERS, LayerList};

/// The first eight bytes, `fxfs-own`, as a number.
pub const MAGIC: u64 = 0x6e77_6f2d_7366_7866;

/// Where the version stands in a superblock.
pub const VERSION_AT: usize = 8;

/// Where the fields after the version stand in a superblock.
pub const AFTER_VERSION: usize = 12;

/// Where the sum stands in a superblock. It covers all bytes before it.
pub const SUM_AT: usize = 4088;

/// The bytes from the blocks of the device to those of the ring, and four zeros.
pub const SIZE_BYTES: usize = 20;

/// The bytes from the sequence to the numbers of layers, and four zeros.
pub const COUNTER_BYTES: usize = 48;

/// The zeros after the floor.
pub const PADDING: usize = 3744;

/// The version of the format.
pub const VERSION: u32 = 1;

/// The fewest blocks of the journal's ring.
pub const MIN_RING: u32 = 256;

/// The most blocks of the journal's ring.
pub const MAX_RING: u32 = 1024;

/// The most blocks of a device.
pub const MAX_BLOCKS: u32 = 65_536;

/// A device has at least this many times the ring's blocks, and `SPARE_BLOCKS` more.
pub const RING_SHARE: u32 = 4;

/// The blocks that a device has at least beyond `RING_SHARE` times the ring's.
pub const SPARE_BLOCKS: u32 = 64;

/// The fewest blocks of a device: those that the smallest ring wants.
pub const MIN_BLOCKS: u32 = RING_SHARE * MIN_RING + SPARE_BLOCKS;

/// The ring's first block. The superblocks are blocks 0 and 1.
pub const RING_AT: u32 = 2;

/// The greatest generation.
pub const MAX_GENERATION: u64 = (1 << 63) - 1;

/// Sequence numbers and base counts lie below this bound, and the next id is at most this.
pub const COUNT_END: u64 = 1 << 62;

/// The greatest next store.
pub const MAX_NEXT_STORE: u32 = 1 << 31;

/// What a superblock says.
#[derive(Clone, Copy, Debug, PartialEq, Eq)]
pub struct Super {
    /// The version of the format: 1.
    pub version: u32,
    /// The blocks of the device: from 4 times the ring's and 64 more to 65,536.
    pub blocks: u32,
    /// Rises with each superblock that is written, from 1 on, at most 2^63 - 1.
    pub generation: u64,
    /// The blocks of the journal's ring: 256 to 1,024. They lie from block 2 on.
    pub ring: u32,
    /// The sequence number at which the journal starts, below 2^62.
    pub sequence: u64,
    /// The checksum that the sum of the journal's first block begins at.
    pub chain: u64,
    /// How many transactions the layers hold, below 2^62.
    pub base: u64,
    /// The next id of a node, 1 to 2^62.
    pub next_id: u64,
    /// The next number of a store, 1 to 2^31.
    pub next_store: u32,
    /// The layers of objects.
    pub objects: LayerList,
    /// The layers of the device's ranges.
    pub allocs: LayerList,
    /// The least epoch of the journal's first block, from 1 to the generation.
    pub floor: u64,
}

/// The superblock of a new image of this size. `ring` is 256 to 1,024, and `blocks` from 4 times
/// `ring` and 64 more to 65,536. It takes no memory.
pub fn first_super(blocks: u32, ring: u32) -> Super
    requires ring_least { MIN_RING ≤ ring }
    requires ring_most { ring ≤ MAX_RING }
    requires blocks_least { RING_SHARE * ring + SPARE_BLOCKS ≤ blocks }
    requires blocks_most { blocks ≤ MAX_BLOCKS }
    ensures fields { fields_of result ≡ first_fields blocks ring }
    ensures rules { KeepsRules (fields_of result) }
{
    Super {
        version: VERSION,
        blocks,
        generation: 1,
        ring,
        sequence: 0,
        chain: 1,
        base: 0,
        next_id: 1,
        next_store: 1,
        objects: LayerList::new(),
        allocs: LayerList::new(),
        floor: 1,
    }
}

impl Super {
    /// Whether the fields keep the rules of a superblock.
    pub fn keeps_rules(&self) -> bool
        ensures { IsTrue result ↔ KeepsRules (fields_of self.now) }
    {
        if !self.has_sizes() {
            return false;
        }
        if !self.has_counters() {
            return false;
        }
        if !self.has_layers(&self.objects) {
            return false;
        }
        self.has_layers(&self.allocs)
    }

    /// Whether the version, the sizes and the generation keep the rules.
    fn has_sizes(&self) -> bool
        ensures { IsTrue result ↔ HasSizes (fields_of self.now) }
    {
        self.version == VERSION
            && MIN_RING <= self.ring
            && self.ring <= MAX_RING
            && self.blocks <= MAX_BLOCKS
            && RING_SHARE * self.ring + SPARE_BLOCKS <= self.blocks
            && 1 <= self.generation
            && self.generation <= MAX_GENERATION
    }

    /// Whether the counters and the floor keep the rules.
    fn has_counters(&self) -> bool
        ensures counters { IsTrue result ↔ HasCounters (fields_of self.now) }
        ensures chain { self.now.chain < 2 ^ 64 }
    {
        // That the chain fits its type is known once it is read.
        let _chain = self.chain;
        self.sequence < COUNT_END
            && self.base < COUNT_END
            && 1 <= self.next_id
            && self.next_id <= COUNT_END
            && 1 <= self.next_store
            && self.next_store <= MAX_NEXT_STORE
            && 1 <= self.floor
            && self.floor <= self.generation
    }

    /// Whether each layer of the list begins after the ring, on the device.
    fn has_layers(&self, list: &LayerList) -> bool
        requires { self.now.ring ≤ MAX_RING }
        ensures layers { IsTrue result ↔ All (IsLayer (fields_of self.now)) list.now }
        ensures most { length list.now ≤ LAYERS }
    {
        let first = self.ring + RING_AT;
        list.as_slice()
            .iter()
            .all(|block| first <= *block && *block < self.blocks)
    }
}
