//! The command `mkfs`.
ghost use Rattle.std.specs.Prelude.{◌≡◌, ◌≤◌};
ghost use Rattle.fx_super.specs.declared.superblock.TheConstants.{MAX_RING, MIN_RING};
ghost use Rattle.fxfs.specs.Stop.{status_of};
ghost use Rattle.fxfs.specs.Outside.{ended};
ghost use Rattle.fxfs.specs.Mkfs.{MkfsEnds};

use crate::ended::{Ended, Stop};
use crate::line::write_formatted;
use crate::shell::stopped;
use fx_disk::Disk;
use fx_io::Sink;
use fx_mount::{MkfsFault, mkfs};
use std::alloc::Global;

/// Formats the disk with a ring of `ring` blocks, `MIN_RING` to `MAX_RING`, and writes the line
/// that tells how many blocks the disk and its ring have, or the line that tells why it was not
/// formatted. Takes no memory. Costs `ring + 4` calls of the disk.
pub fn mkfs_call<D: Disk, K: Sink>(alloc: Global, ring: u32, disk: D, out: &mut K) -> Ended<D>
    requires least { MIN_RING ≤ ring }
    requires most { ring ≤ MAX_RING }
    ensures status { result.status ≡ status_of result.stop }
    ensures ends { MkfsEnds ring (D.seen disk) (D.seen result.disk)
        (K.seen out.old) (K.seen out.new)
        (ended result.stop result.base result.history result.outcomes) }
{
    let mut disk = disk;
    match mkfs(&mut disk, ring) {
        Ok(()) => {}
        Err(MkfsFault::Size(blocks)) => return stopped(
            alloc,
            disk,
            out,
            Stop::DiskTooSmall(blocks),
        ),
        Err(MkfsFault::Device) => return stopped(alloc, disk, out, Stop::Device),
    }
    let blocks = disk.blocks();
    match write_formatted(out, blocks, ring) {
        Ok(()) => Ended::idle(alloc, Stop::Done, disk),
        Err(_) => Ended::idle(alloc, Stop::Write, disk),
    }
}
