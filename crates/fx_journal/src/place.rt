//! Where the blocks of the journal stand on the disk.
ghost use Rattle.std.specs.Prelude.{◌≡◌, ◌+◌, ◌<◌, ◌≤◌, ◌^◌};
ghost use Rattle.fx_journal.specs.Stream.{place_of};

use fx_super::RING_AT;

/// The number of the disk's block for this sequence, in a ring of so many blocks: its blocks are
/// used in turn.
pub fn block_number(ring: u32, sequence: u64) -> u32
    requires filled { 1 ≤ ring }
    requires room { ring + RING_AT ≤ 2 ^ 32 }
    ensures place { result ≡ place_of ring sequence }
    ensures within { result < ring + RING_AT }
{
    RING_AT + (sequence % u64::from(ring)) as u32
}
