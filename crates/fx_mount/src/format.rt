//! Formatting a disk.
ghost use Rattle.std.specs.Prelude.{◌≡◌, ℕ, ◌+◌, ◌<◌, ◌≤◌, IfErr, OnOk, is_ok};
ghost use Rattle.fx_disk.specs.Longer.{BothTell};
ghost use Rattle.fx_disk.specs.Seen.{GoesOn};
ghost use Rattle.fx_super.specs.declared.superblock.TheConstants.{MAX_RING, MIN_RING};
ghost use Rattle.fx_store.specs.Opening.{MakesCalls};
ghost use Rattle.fx_mount.specs.Formatted.{IsLaidOut, IsMkfsCause, IsNowFormatted};
ghost use Rattle.fx_mount.specs.Laying.{KeepsFirst};

use crate::fault::MkfsFault;
use fx_base::{BLOCK_BYTES, zero_block};
use fx_disk::{Disk, DiskFailed};
use fx_super::{MAX_BLOCKS, RING_SHARE, SPARE_BLOCKS, encode_super, first_super};

/// Formats the disk with a ring of `ring` blocks, `MIN_RING` to `MAX_RING`: zeros in block 1 and in
/// the ring, a flush, the first superblock in block 0, and another flush. Makes `ring + 4` writes
/// and flushes, and takes no memory. A stop before its end promises nothing.
///
/// `Size` comes exactly where the disk has fewer than `4 * ring + 64` blocks or more than 65,536,
/// and then the disk was not touched.
pub fn mkfs<D: Disk>(disk: &mut D, ring: u32) -> Result<(), MkfsFault>
    requires least { MIN_RING ≤ ring }
    requires most { ring ≤ MAX_RING }
    ensures formatted { OnOk result (IsNowFormatted ring (D.seen disk.old) (D.seen disk.new)) }
    ensures cause { IfErr result (IsMkfsCause ring (D.seen disk.old) (D.seen disk.new)) }
    ensures untouched { IfErr result (λ fault. (blocks : ℕ) →
        fault ≡ MkfsFault.Size blocks → disk.new ≡ disk.old) }
    ensures few { (D.seen disk.new).calls ≤ (D.seen disk.old).calls + ring + 4 }
    ensures goes { GoesOn (D.seen disk.old) (D.seen disk.new) }
{
    let blocks = disk.blocks();
    if blocks < RING_SHARE * ring + SPARE_BLOCKS || MAX_BLOCKS < blocks {
        return Err(MkfsFault::Size(blocks));
    }
    let mut block = zero_block();
    encode_super(&first_super(blocks, ring), &mut block);
    match lay_out(disk, ring, &block) {
        Ok(()) => Ok(()),
        Err(DiskFailed) => Err(MkfsFault::Device),
    }
}

/// Writes zeros to block 1 and to the ring.
fn clear<D: Disk>(disk: &mut D, ring: u32) -> Result<(), DiskFailed>
    requires most { ring ≤ MAX_RING }
    requires room { ring + 2 ≤ (D.seen disk.old).size }
    ensures laid { OnOk result (BothTell (KeepsFirst (ring + 2))
        (D.seen disk.old).told (D.seen disk.new).told) }
    ensures each { MakesCalls (ring + 1) (D.seen disk.old) (D.seen disk.new) (is_ok result) }
{
    let zeros = zero_block();
    for at in 1..ring + 2 {
        disk.write(at, &zeros)?;
    }
    Ok(())
}

/// Writes zeros to block 1 and to the ring, flushes, writes block 0 and flushes.
fn lay_out<D: Disk>(disk: &mut D, ring: u32, first: &[u8; BLOCK_BYTES]) -> Result<(), DiskFailed>
    requires most { ring ≤ MAX_RING }
    requires room { ring + 2 ≤ (D.seen disk.old).size }
    ensures laid { OnOk result (BothTell (IsLaidOut ring first.now)
        (D.seen disk.old).told (D.seen disk.new).told) }
    ensures each { MakesCalls (ring + 4) (D.seen disk.old) (D.seen disk.new) (is_ok result) }
{
    clear(disk, ring)?;
    disk.flush()?;
    disk.write(0, first)?;
    disk.flush()
}
